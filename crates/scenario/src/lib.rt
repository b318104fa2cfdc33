// The checks of a scenario: 9 for the distance, 13 and 1 to 6.
#![tactic(auto)]

ghost use Rattle.std.specs.Prelude.{◌≡◌, not, [], ◌∷◌};
ghost use Rattle.toolbox_theory.specs.Lists.{among};
ghost use Rattle.scenario_theory.specs.Checks.{◌to◌, beyond};
ghost use Rattle.scenario_theory.specs.Distances.{rupture_number, projection_number, exceeds};
ghost use Rattle.scenario_theory.specs.Refusal.{refusal_of};
ghost use Rattle.scenario_theory.specs.Accepted.{limit_check, check_of};

use scenario_rows::{boore_atkinson_place, idriss_place};
use scenario_theory::ModelLimits;
pub use scenario_theory::{Basis, ProjectionDistance, Refusal, RuptureDistance, Scenario};

// The columns of document 01, 'The scenario'.
const IDRISS: ModelLimits = ModelLimits {
    magnitude: (450, 790),
    distance: 17_500,
    velocity: (4_500, 20_000),
    mechanism: 4,
};

const BOORE_ATKINSON: ModelLimits = ModelLimits {
    magnitude: (500, 800),
    distance: 19_999,
    velocity: (1_800, 13_000),
    mechanism: 9,
};

fn outside(limits: (u16, u16), x: u16) -> bool
    ensures { result ≡ beyond (limits.0 to limits.1) x }
{
    x < limits.0 || limits.1 < x
}

// The mechanism codes of a model are 0 to 3 and one other.
fn unknown(code: u8, other: u8) -> bool
    ensures { result ≡ not (among (0 ∷ 1 ∷ 2 ∷ 3 ∷ other ∷ []) code) }
{
    3 < code && code != other
}

// The checks 2 to 5 by a model's limits, of the distance that it reads.
fn within(limits: ModelLimits, s: Scenario, distance: u16) -> Result<(), Refusal>
    ensures { result ≡ limit_check limits s distance }
{
    if outside(limits.magnitude, s.magnitude) {
        return Err(Refusal::Magnitude);
    }
    if outside((0, limits.distance), distance) {
        return Err(Refusal::Distance);
    }
    if outside(limits.velocity, s.velocity) {
        return Err(Refusal::Velocity);
    }
    if unknown(s.mechanism, limits.mechanism) {
        return Err(Refusal::Mechanism);
    }
    Ok(())
}

// Whether both distances stand and the projection distance exceeds the rupture distance.
fn projection_exceeds(s: Scenario) -> bool
    ensures { result ≡ exceeds (projection_number s.projection) (rupture_number s.rupture) }
{
    match (s.rupture, s.projection) {
        (Some(r), Some(p)) => r.0 < p.0,
        _ => false,
    }
}

// The checks 9 for the distance, 13 and 1 to 6 of a scenario: what the answer rests on, or the first that it fails.
// Where 13 applies both distances stand, so that 9 does not, and it can be looked at first.
pub fn check(s: Scenario) -> Result<Basis, Refusal>
    ensures { result ≡ check_of s }
{
    if projection_exceeds(s) {
        return Err(Refusal::ProjectionExceedsRupture);
    }
    match s.model {
        1 => {
            let distance = s.rupture.ok_or(Refusal::MissingField)?;
            within(IDRISS, s, distance.0)?;
            let place = idriss_place(s.period).ok_or(Refusal::Period)?;
            Ok(Basis::Idriss(distance, place))
        }
        2 => {
            let distance = s.projection.ok_or(Refusal::MissingField)?;
            within(BOORE_ATKINSON, s, distance.0)?;
            let place = boore_atkinson_place(s.period).ok_or(Refusal::Period)?;
            Ok(Basis::BooreAtkinson(distance, place))
        }
        _ => Err(Refusal::Model),
    }
}

// The number of the first of the checks 9 for the distance, 13 and 1 to 6 that s fails, 0 where it fails none: it stays
// a number, as C is told it (fusnoch_refusal).
pub fn refusal(s: Scenario) -> u8
    ensures { result ≡ refusal_of s }
{
    match check(s) {
        Ok(_) => 0,
        Err(e) => e.into(),
    }
}
