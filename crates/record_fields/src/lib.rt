// The fields of a record at the front of some bytes, and the checks before they are taken.
#![tactic(auto)]

ghost use Rattle.std.specs.Prelude.{◌≡◌, cond, ◌+◌, ◌≤◌, ◌<◌, length, take, drop, Some, None};
ghost use Rattle.record_theory.specs.Layout.{layout, number_of, absent_written};
ghost use Rattle.record_theory.specs.Outcome.{scenario_in};
ghost use Rattle.scenario_theory.specs.Numbers.{check_with};
ghost use Rattle.record_theory.specs.Steps.{Complete, StandBy, front_refusal};

use record_map::{
    ABSENT_MECHANISM, ABSENT_PERIOD, ABSENT_VELOCITY, map_check, more_if, record_length,
};
use scenario_theory::{ProjectionDistance, Refusal, RuptureDistance, Scenario};

// The number of the two bytes at a place, the low byte first.
fn word(s: &[u8], at: usize) -> u16
    requires { at + 1 < length s.now }
    ensures { result ≡ number_of (take 2 (drop at s.now)) }
{
    u16::from_le_bytes([s[at], s[at + 1]])
}

// That number, where the field stands.
fn word_if(s: &[u8], stands: bool, at: usize) -> Option<u16>
    requires { at + cond stands 2 0 ≤ length s.now }
    ensures { result ≡ cond stands (Some (number_of (take 2 (drop at s.now)))) None }
{
    if stands { Some(word(s, at)) } else { None }
}

// The scenario of the record at the front of s. The places are worked out as record_length does: a struct of four for
// two users is no plainer.
#[tactic(auto, using(record_theory::proofs::FieldLaws::fields_fit))]
pub fn fields(s: &[u8]) -> Scenario
    requires { Complete s.now }
    ensures { result ≡ scenario_in s.now }
{
    let m = s[0];
    let rupture = m / 4 % 2 == 1;
    let velocity = m / 8 % 2 == 1;
    let mechanism = m / 16 % 2 == 1;
    let period = m / 32 % 2 == 1;
    let velocity_at = more_if(4, rupture, 2);
    let mechanism_at = more_if(velocity_at, velocity, 2);
    let period_at = more_if(mechanism_at, mechanism, 1);
    let projection_at = more_if(period_at, period, 2);
    Scenario {
        model: s[1],
        magnitude: word(s, 2),
        rupture: word_if(s, rupture, 4).map(RuptureDistance),
        velocity: word_if(s, velocity, velocity_at).unwrap_or(ABSENT_VELOCITY),
        mechanism: if mechanism {
            s[mechanism_at]
        } else {
            ABSENT_MECHANISM
        },
        period: word_if(s, period, period_at).unwrap_or(ABSENT_PERIOD),
        projection: word_if(s, m / 64 % 2 == 1, projection_at).map(ProjectionDistance),
    }
}

// A field of x that stands in the map m has its absent number; a distance has none.
#[tactic(auto, using(record_theory::proofs::FieldLaws::absent_written_is))]
pub fn absent_written(m: u8, x: Scenario) -> bool
    requires { StandBy m x }
    ensures { result ≡ absent_written layout m x }
{
    x.velocity == ABSENT_VELOCITY && m / 8 % 2 == 1
        || x.mechanism == ABSENT_MECHANISM && m / 16 % 2 == 1
        || x.period == ABSENT_PERIOD && m / 32 % 2 == 1
}

// The checks before the fields are taken.
pub fn front_check(s: &[u8]) -> Result<(), Refusal>
    ensures { result ≡ check_with (front_refusal s.now) }
{
    if s.is_empty() {
        return Err(Refusal::Truncated);
    }
    let m = s[0];
    map_check(m)?;
    if s.len() < record_length(m) {
        return Err(Refusal::Truncated);
    }
    Ok(())
}
