// Answers as plain structs, the number with zeros where a scenario is refused: what hosts and sheets hold.
#![tactic(auto)]

ghost use Rattle.std.specs.Prelude.{◌≡◌};
ghost use Rattle.scenario_theory.specs.Refusal.{refusal_of};
ghost use Rattle.record_theory.specs.Outcome.{scenario_in, read_refusal};
ghost use Rattle.engine_theory.specs.Evaluation.{answer_of, record_answer_of};
ghost use Rattle.engine_theory.specs.Flat.{told, FlatPromise};

pub use engine_theory::FlatAnswer;
use scenario_theory::Scenario;

// Answers a scenario of any fields.
pub fn answer_fields(s: Scenario) -> FlatAnswer
    ensures value { result ≡ told (answer_of s) }
    ensures flat_promise { FlatPromise (refusal_of s) s result }
{
    engine::answer_fields(s).into()
}

// Answers the record at the front of any bytes.
pub fn answer_record(bytes: &[u8]) -> FlatAnswer
    ensures value { result ≡ told (record_answer_of bytes.now) }
    ensures flat_promise { FlatPromise (read_refusal bytes.now) (scenario_in bytes.now) result }
{
    engine::answer_record(bytes).into()
}
