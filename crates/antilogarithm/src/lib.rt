// From the ends of a logarithm of g to whole numbers of millionths of g.
#![tactic(auto)]

ghost use Rattle.std.specs.Prelude.{◌≡◌, suc, ◌+◌, ◌^◌, ◌≤◌, ◌<◌};
ghost use Rattle.millionths_theory.specs.Promise.{FromEnds};
ghost use Rattle.millionths_theory.specs.Evaluation.{ln_millionths, most, floor_of, ceiling_after, millionths_from};

use interval::between;
use interval_theory::Ends;
use logarithm::ln;
use millionths_theory::Floor;
pub use millionths_theory::Millionths;

// ln(k/10^6).
#[tactic(auto, unfolding(millionths_theory::specs::Evaluation::ln_millionths))]
fn ln_millionths(k: u64) -> Ends<i64>
    requires { (1 ≤ k) × (k ≤ suc most) }
    ensures { result ≡ ln_millionths k }
{
    if 1_000_000 <= k {
        let e = ln(k, 1_000_000);
        return between(e.low, 0, e.high, 0);
    }
    let e = ln(1_000_000, k);
    between(0, e.high, 0, e.low)
}

// The greatest k with ln(k/10^6) up to z, and the low end of the next, at first that of 8,388,608. The search goes
// number by number from the start, wherever that is; the library's searches halve from the middle and take no start.
fn floor(z: i64, start: u64) -> Floor
    ensures { result ≡ floor_of z }
{
    let mut low = 0;
    let mut high = 8_388_608;
    let mut next = 2_126_874_594;
    while 1 < high - low {
        let k = start.clamp(low + 1, high - 1);
        let e = ln_millionths(k);
        if e.high <= z {
            low = k;
        } else {
            high = k;
            next = e.low;
        }
    }
    Floor { whole: low, next }
}

// The first k after a with ln(k/10^6) from z on; the low end of the next after a is given.
fn ceiling_after(a: u64, next: i64, z: i64) -> u64
    requires { (a ≤ most) × (next ≡ (ln_millionths (a + 1)).low) }
    ensures { result ≡ ceiling_after a z }
{
    let mut low = next;
    for k in a + 1..8_388_608 {
        if z <= low {
            return k;
        }
        low = ln_millionths(k + 1).low;
    }
    8_388_608
}

// c + r f, where f is in units of 2^-32.
fn term(c: u64, r: u64, f: u64) -> u64
    requires { (c < 2 ^ 32) × (r < 2 ^ 32) × (f < 2 ^ 32) }
    ensures { result ≤ c + r }
{
    c + r * f / 4_294_967_296
}

// 2^f in units of 2^-31, for f in units of 2^-32, nearly: a polynomial of degree 6.
fn power_of_two(f: u64) -> u64
    requires { f < 2 ^ 32 }
{
    let r = term(2_661_018, 469_564, f);
    let r = term(20_796_632, r, f);
    let r = term(119_143_746, r, f);
    let r = term(515_890_973, r, f);
    let r = term(1_488_521_704, r, f);
    term(2_147_483_653, r, f)
}

// z + ln 10^6, for z in units of 10^-9, held from 0 to ln 10^6 + 2.126.
fn shifted(z: i64) -> u64
    ensures { result ≤ 15_941_510_558 }
{
    (z.clamp(-13_815_510_558, 2_126_000_000) + 13_815_510_558) as u64
}

// 10^6 e^z, for z in units of 10^-9, nearly, by its logarithm to the base 2 in units of 2^-32: where the search starts.
// Nothing but its time rests on it.
fn near(z: i64) -> u64 {
    let octaves = shifted(z) * 831_657_069 / 134_217_728;
    power_of_two(octaves % 4_294_967_296) >> (31 - octaves / 4_294_967_296)
}

// Two whole numbers of millionths, of any ends of a logarithm: what these enclose lies between the numbers if they are
// at most 4,000 units apart and not above 2.1.
pub fn from_ends(e: Ends<i64>) -> Millionths
    ensures value { result ≡ millionths_from e }
    ensures from_ends { FromEnds e result }
{
    let a = floor(e.low, near(e.low));
    let b = ceiling_after(a.whole, a.next, e.high);
    Millionths {
        low: a.whole as u32,
        high: b as u32,
    }
}
