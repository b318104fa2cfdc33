// How many scenarios a sheet answers, by how many there are.
#![tactic(auto)]

ghost use Rattle.std.specs.Prelude.{◌≡◌};
ghost use Rattle.sheet_theory.specs.Evaluation.{head_of};

use scenario_theory::Refusal;

// All, but where there are more than 64.
pub fn head_of(count: usize) -> Result<usize, Refusal>
    ensures { result ≡ head_of count }
{
    if 64 < count {
        return Err(Refusal::TooManyScenarios);
    }
    Ok(count)
}
