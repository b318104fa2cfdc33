// Medians in millionths of g: their types, what is promised, what is computed, and laws. There is no code.
#![tactic(auto)]

use interval_theory::Ends;
use scenario_theory::Refusal;

// Two whole numbers of millionths of g.
pub type Millionths = Ends<u32>;

// What answering in millionths gives: two of them, or why the scenario is turned away.
pub type MillionthsAnswer = Result<Millionths, Refusal>;

// Of some units of a logarithm: the greatest whole number of millionths whose logarithm is surely up to them, and the
// low end of the next number's logarithm.
#[derive(Clone, Copy)]
pub struct Floor {
    pub whole: u64,
    pub next: i64,
}
