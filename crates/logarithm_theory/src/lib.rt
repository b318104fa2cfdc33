// The natural logarithm of a quotient and the square root of a whole number: types, definitions and laws. There is no
// code.
#![tactic(auto)]

// mantissa 2^octave / 2^35, the mantissa from 2^35 to below 2^36.
#[derive(Clone, Copy)]
pub struct Scaled {
    pub octave: u64,
    pub mantissa: u64,
}
