// What the program prints, and what it says of a read or a write that fails: definitions and laws. There is no code.
#![tactic(auto)]

// A read or a write that failed, after so many bytes.
#[derive(Clone, Copy, Debug, PartialEq, Eq)]
pub struct Failed(pub usize);

// How far a read or a write came, in bytes.
pub type Transfer = Result<usize, Failed>;
