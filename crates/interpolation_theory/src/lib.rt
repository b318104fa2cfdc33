// The value between two rows of a table: the formula, what is computed of it, what is promised, and laws. There is no
// code.
#![tactic(auto)]

use interval_theory::{Ends, SignedPair};

// The periods of two neighbouring rows, in thousandths of a second, and ln(T2/T1).
#[derive(Clone, Copy)]
pub struct Neighbours {
    pub lower: u16,
    pub upper: u16,
    pub whole: Ends<u64>,
}

// A period between those of two rows, in thousandths of a second, with ln(T/T1) and ln(T2/T1).
#[derive(Clone, Copy)]
pub struct Step {
    pub period: u16,
    pub lower: u16,
    pub upper: u16,
    pub part: Ends<u64>,
    pub whole: Ends<u64>,
}

// The values by two rows; where there is only one, it is the upper, and the lower is 0: zeros and no Option, as Place
// has said whether there is a row before, and two_rows_of, in the clauses, has zeros for it.
#[derive(Clone, Copy)]
pub struct TwoRows {
    pub lower: SignedPair,
    pub upper: SignedPair,
}
