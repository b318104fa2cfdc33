// Answers a scenario with its median in millionths of g: two whole numbers between which the exact value lies, or why
// the scenario is turned away.
#![tactic(auto)]

ghost use Rattle.std.specs.Prelude.{◌≡◌};
ghost use Rattle.scenario_theory.specs.Refusal.{refusal_of};
ghost use Rattle.millionths_theory.specs.Promise.{MillionthsPromise};
ghost use Rattle.millionths_theory.specs.Evaluation.{millionths_of};

use antilogarithm::from_ends;
pub use millionths_theory::MillionthsAnswer;
use scenario_theory::Scenario;

// Answers a scenario of any fields.
pub fn answer_fields(s: Scenario) -> MillionthsAnswer
    ensures value { result ≡ millionths_of s }
    ensures millionths_promise { MillionthsPromise (refusal_of s) s result }
{
    let e = engine::answer_fields(s)?;
    Ok(from_ends(e.median))
}
