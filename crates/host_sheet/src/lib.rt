// A sheet's scenarios as C has them.
#![tactic(auto)]

ghost use Rattle.std.specs.Prelude.{◌≡◌};
ghost use Rattle.sheet_theory.specs.Evaluation.{filled, answered_count};
ghost use Rattle.host_theory.specs.Told.{scenario_from, no_fields};

use host_theory::HostScenario;
use scenario_theory::Scenario;
use sheet_head::head_of;

// The scenarios at the places that are answered with this count, the first so many or none; the other places are not
// read, and what stands for them are zeros, with no distances.
// A function and no From: it takes C's count, too.
pub fn scenarios_from(count: usize, places: [HostScenario; 64]) -> [Scenario; 64]
    ensures { result ≡ filled scenario_from (scenario_from no_fields) (answered_count count) places }
{
    let mut scenarios = [Scenario::from(HostScenario::default()); 64];
    let answered = head_of(count).unwrap_or(0);
    for (i, place) in places[..answered].iter().enumerate() {
        scenarios[i] = Scenario::from(*place);
    }
    scenarios
}
