// The record of a scenario: what reading and writing answer, the layout, and laws. There is no code.
#![tactic(auto)]

use scenario_theory::{Basis, Refusal, Scenario};

// What is read: the scenario, and the length of its record.
pub type Reading = Result<(Scenario, usize), Refusal>;

// What is written: the length of the record.
pub type Writing = Result<usize, Refusal>;

// What is read, with what an answer to the scenario rests on.
pub type BasedReading = Result<(Scenario, usize, Basis), Refusal>;
