// The logarithm's two tables of factors, and that each logarithm in them is right: one walk down the whole numbers,
// which the checker computes. There is no code.
#![tactic(auto)]

// A whole number, and the logarithm of 4096 (coarse) or 16384 (fine) over it in units of 10^-9/4096, rounded down.
#[derive(Clone, Copy)]
pub struct Factor {
    pub by: u64,
    pub logarithm: u64,
}
