// Intervals of whole units: their types, the steps with them, rounded outward, and laws. There is no code.
#![tactic(auto)]

// A low end and a high end.
#[derive(Clone, Copy)]
pub struct Ends<T> {
    pub low: T,
    pub high: T,
}

// Something between the gain's ends, less something between the loss's.
#[derive(Clone, Copy)]
pub struct SignedPair {
    pub gain: Ends<u64>,
    pub loss: Ends<u64>,
}
