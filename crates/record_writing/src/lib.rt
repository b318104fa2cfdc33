// Writes the record of a scenario.
#![tactic(auto)]

ghost use Rattle.std.specs.Prelude.{◌≡◌, ◌∷◌, ◌+◌, ◌≤◌, ◌<◌, length, take, drop};
ghost use Rattle.std.proofs.lemmas.List.Edits.{sets};
ghost use Rattle.stores_theory.specs.Stores.{Put};
ghost use Rattle.record_theory.specs.Layout.{layout, map_of, part_of, parts_of};
ghost use Rattle.record_theory.specs.Outcome.{write_of, lent_after, WritePromise};

use record_map::{ABSENT_MECHANISM, ABSENT_PERIOD, ABSENT_VELOCITY, more_if, record_length};
pub use record_theory::Writing;
use scenario_theory::{Refusal, Scenario};

// The map byte of x's record.
fn map_byte(x: Scenario) -> u8
    ensures { result ≡ map_of layout x }
{
    let rupture = more_if(3, x.rupture.is_some(), 4);
    let velocity = more_if(rupture, x.velocity != ABSENT_VELOCITY, 8);
    let mechanism = more_if(velocity, x.mechanism != ABSENT_MECHANISM, 16);
    let period = more_if(mechanism, x.period != ABSENT_PERIOD, 32);
    more_if(period, x.projection.is_some(), 64) as u8
}

// Puts a field of two bytes at a place, unless it is left out, and answers the place after it. The bytes and a place go
// in here and below, and the next place comes out: the caller's later bytes stay.
fn put_word(out: &mut [u8], at: usize, x: Option<u16>) -> usize
    requires { at + length (part_of 2 x) ≤ length out.old }
    ensures { Put at (part_of 2 x) out.old result out.new }
{
    match x {
        Some(x) => {
            out[at..at + 2].copy_from_slice(&x.to_le_bytes());
            at + 2
        }
        None => at,
    }
}

// The map, the model and the magnitude, which always stand.
fn put_head(x: Scenario, m: u8, out: &mut [u8])
    requires { 3 < length out.old }
    ensures { out.new ≡ sets out.old 0 (m ∷ parts_of (take 2 layout) x) }
{
    let [low, high] = x.magnitude.to_le_bytes();
    out[..4].copy_from_slice(&[m, x.model, low, high]);
}

// The rupture distance, the velocity and the mechanism.
fn put_middle(x: Scenario, out: &mut [u8]) -> usize
    requires { 4 + length (parts_of (take 3 (drop 2 layout)) x) ≤ length out.old }
    ensures { Put 4 (parts_of (take 3 (drop 2 layout)) x) out.old result out.new }
{
    let rupture = x.rupture.map(|d| d.0);
    let velocity = (x.velocity != ABSENT_VELOCITY).then_some(x.velocity);
    let velocity_at = put_word(out, 4, rupture);
    let mechanism_at = put_word(out, velocity_at, velocity);
    if x.mechanism == ABSENT_MECHANISM {
        return mechanism_at;
    }
    out[mechanism_at] = x.mechanism;
    mechanism_at + 1
}

// The period and the projection distance.
fn put_end(x: Scenario, at: usize, out: &mut [u8]) -> usize
    requires { at + length (parts_of (drop 5 layout) x) ≤ length out.old }
    ensures { Put at (parts_of (drop 5 layout) x) out.old result out.new }
{
    let period = (x.period != ABSENT_PERIOD).then_some(x.period);
    let projection = x.projection.map(|d| d.0);
    let projection_at = put_word(out, at, period);
    put_word(out, projection_at, projection)
}

// Puts the record of x at the front of out; where it is turned away, out is not touched.
pub fn write(x: Scenario, out: &mut [u8]) -> Writing
    ensures value { result ≡ write_of x out.old }
    ensures write_promise { WritePromise x out.old result }
    ensures out_after { out.new ≡ lent_after x out.old }
{
    scenario::check(x)?;
    let m = map_byte(x);
    let n = record_length(m);
    if out.len() < n {
        return Err(Refusal::BufferTooShort);
    }
    put_head(x, m, out);
    let period_at = put_middle(x, out);
    put_end(x, period_at, out);
    Ok(n)
}
