// Says which scenario of a sheet governs, and which others may.
#![tactic(auto)]

ghost use Rattle.std.specs.Prelude.{◌≡◌};
ghost use Rattle.governing_theory.specs.Promise.{GoverningPromise};
ghost use Rattle.governing_theory.specs.Evaluation.{governing_of};

pub use governing_theory::FlatScreening;
use scenario_theory::Scenario;
use screening::screen;
use sheet::answer_sheet;

// Answers the first count of the scenarios, names the accepted one with the greatest high end of the median, and marks
// those that may be the greatest. With more than 64 scenarios, and where none is accepted, nothing is named or marked.
// A count beside 64 places, as C has them.
pub fn governing(count: usize, scenarios: [Scenario; 64]) -> FlatScreening
    ensures value { result ≡ governing_of count scenarios }
    ensures governing_promise { GoverningPromise count scenarios result }
{
    screen(answer_sheet(count, scenarios))
}
