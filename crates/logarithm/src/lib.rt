// The natural logarithm of a quotient and the square root of a whole number, each by ends that enclose the exact value.
#![tactic(auto)]

ghost use Rattle.std.specs.Prelude.{◌≡◌, ◌^◌, ◌<◌};
ghost use Rattle.exact_theory.specs.Root.{whole_root};
ghost use Rattle.logarithm_theory.specs.Promise.{LnDomain, LnEnds, RootEnds};
ghost use Rattle.logarithm_theory.specs.Evaluation.{Mantissa, Normal, NearOne, scaled_by, scaled_of, near_one_of};
ghost use Rattle.logarithm_theory.specs.Evaluation.{mantissa_ln_of, scaled_ln_of, ln_of, root_of};

pub use interval_theory::Ends;
use logarithm_tables as table;
use logarithm_theory::Scaled;

// LnDomain stands in each contract: ln, which docs/CONTRACTS.md names, takes any two numbers that meet it.

// a/b, rounded down.
#[tactic(auto, unfolding(logarithm_theory::specs::Evaluation::scaled_of))]
fn scale(a: u64, b: u64) -> Scaled
    requires { LnDomain a b }
    ensures { result ≡ scaled_of a b }
{
    let x = a * 34_359_738_368 / b;
    let k = 28 - u64::leading_zeros(x);
    Scaled {
        octave: k as u64,
        mantissa: x >> k,
    }
}

// ln(p/2^61) in units of 10^-9/4096, from below: d − d²/2 of d = p/2^61 − 1.
#[tactic(auto, unfolding(logarithm_theory::specs::Evaluation::near_one_of))]
fn near_one(p: u64) -> u64
    requires { NearOne p }
    ensures { result ≡ near_one_of p }
{
    let d = (p - 2_305_843_009_213_693_952) / 1_048_576;
    let half_square = (d * d + 4_398_046_511_103) / 4_398_046_511_104;
    (d - half_square) * 1_000_000_000 / 536_870_912
}

// ln(y/2^35) in units of 10^-9/4096, from below: two factors bring y near 1, and what is left is near 0.
#[tactic(auto, unfolding(logarithm_theory::specs::Evaluation::mantissa_ln_of))]
fn mantissa_ln(y: u64) -> u64
    requires { Mantissa y }
    ensures { result ≡ mantissa_ln_of y }
{
    let coarse = table::coarse(y / 536_870_912 - 64);
    let nearer = y * coarse.by;
    let fine = table::fine(nearer / 34_359_738_368 - 4_096);
    let rest = near_one(nearer * fine.by);
    coarse.logarithm + fine.logarithm + rest
}

// The ends of a scaled number's logarithm; its two parts pass in registers.
#[tactic(auto, unfolding(logarithm_theory::specs::Evaluation::scaled_ln_of))]
fn scaled_ln(octave: u64, mantissa: u64) -> Ends<u64>
    requires { Normal (scaled_by octave mantissa) }
    ensures { result ≡ scaled_ln_of (scaled_by octave mantissa) }
{
    let sum = octave * table::LN_2 + mantissa_ln(mantissa);
    Ends {
        low: sum / 4_096,
        high: (sum + 23 * octave + 4_304) / 4_096,
    }
}

// ln(a/b), for 1 ≤ b ≤ a < 2^29.
#[tactic(auto, unfolding(logarithm_theory::specs::Evaluation::ln_of))]
pub fn ln(a: u64, b: u64) -> Ends<u64>
    requires { LnDomain a b }
    ensures value { result ≡ ln_of a b }
    ensures ln_ends { LnEnds a b result }
{
    if a == b {
        return Ends { low: 0, high: 0 };
    }
    let s = scale(a, b);
    scaled_ln(s.octave, s.mantissa)
}

// ln(a/100), for 100 < a < 2^29, as ln(a, 100) has it. The divisor is known here, so that no division is needed.
pub fn ln_hundredths(a: u64) -> Ends<u64>
    requires { LnDomain a 100 × (100 < a) }
    ensures value { result ≡ ln_of a 100 }
    ensures ln_ends { LnEnds a 100 result }
{
    let s = scale(a, 100);
    scaled_ln(s.octave, s.mantissa)
}

// The greatest whole number whose square is at most n, by Newton's steps down from above. The library's isqrt was
// tried: it halves an interval 32 times, 404 instructions more, and Boore-Atkinson then misses the bar of 20 beside
// Arb.
fn whole_root(n: u64) -> u64
    requires { n < 2 ^ 63 }
    ensures { result ≡ whole_root n }
{
    let half = (64 - u64::leading_zeros(n)) / 2;
    let mut s = ((1u64 << half) + (n >> half)) / 2;
    while n < s * s {
        s = (s + n / s) / 2;
    }
    s
}

// The root of x lies from r/131072 to (r + 1)/131072, r the result.
#[tactic(auto, unfolding(logarithm_theory::specs::Evaluation::root_of))]
pub fn root(x: u64) -> u64
    requires { x < 2 ^ 29 }
    ensures value { result ≡ root_of x }
    ensures root_ends { RootEnds x result }
{
    whole_root(x * 17_179_869_184)
}
