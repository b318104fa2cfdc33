// The periods of the rows that a median rests on.
#![tactic(auto)]

ghost use Rattle.std.specs.Prelude.{◌≡◌};
ghost use Rattle.scenario_theory.specs.Neighbours.{row_periods_of};

use scenario::check;
use scenario_rows::{boore_atkinson_period, idriss_period};
pub use scenario_theory::RowPeriods;
use scenario_theory::{Basis, ProjectionDistance, Refusal, RuptureDistance, Scenario};

// The periods of the two rows that a median at a period rests on: equal where the period has a row of its own, else its
// neighbours in the tables of the model. The model stays a number: row_periods_of answers for any, and a type of two
// would ask more. The checks look them up, of a scenario that is accepted but for these two.
pub fn row_periods(model: u8, period: u16) -> Result<RowPeriods, Refusal>
    ensures { result ≡ row_periods_of model period }
{
    let s = Scenario {
        model,
        magnitude: 700,
        rupture: Some(RuptureDistance(0)),
        velocity: 7_600,
        mechanism: 0,
        period,
        projection: Some(ProjectionDistance(0)),
    };
    match check(s)? {
        Basis::Idriss(_, place) => Ok(RowPeriods {
            lower: idriss_period(place.first()),
            upper: idriss_period(place.last()),
        }),
        Basis::BooreAtkinson(_, place) => Ok(RowPeriods {
            lower: boore_atkinson_period(place.first()),
            upper: boore_atkinson_period(place.last()),
        }),
    }
}
