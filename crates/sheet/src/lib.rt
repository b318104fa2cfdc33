// Answers a sheet of scenarios in one go: at each place what the single call gives, or zeros.
#![tactic(auto)]

ghost use Rattle.std.specs.Prelude.{◌≡◌};
ghost use Rattle.sheet_theory.specs.Promise.{SheetPromise};
ghost use Rattle.sheet_theory.specs.Evaluation.{sheet_of};

use scenario_theory::Scenario;
use sheet_head::head_of;
pub use sheet_theory::FlatSheet;

// Answers the first count of the scenarios, and none of them where that is more than 64: a count beside 64 places, as C
// has them, and no slice.
pub fn answer_sheet(count: usize, scenarios: [Scenario; 64]) -> FlatSheet
    ensures value { result ≡ sheet_of count scenarios }
    ensures sheet_promise { SheetPromise count scenarios result }
{
    let (number, answered) = match head_of(count) {
        Ok(answered) => (0, answered),
        Err(refusal) => (u8::from(refusal), 0),
    };
    // An array of its own for each field until the end: stores into a FlatSheet's cost 28 instructions a place.
    let mut median_low = [0; 64];
    let mut median_high = [0; 64];
    let mut sigma_low = [0; 64];
    let mut sigma_high = [0; 64];
    let mut numbers = [0; 64];
    for (i, scenario) in scenarios[..answered].iter().enumerate() {
        let answer = flat::answer_fields(*scenario);
        median_low[i] = answer.median_low;
        median_high[i] = answer.median_high;
        sigma_low[i] = answer.sigma_low;
        sigma_high[i] = answer.sigma_high;
        numbers[i] = answer.number;
    }
    FlatSheet {
        number,
        count: answered,
        median_low,
        median_high,
        sigma_low,
        sigma_high,
        numbers,
    }
}
