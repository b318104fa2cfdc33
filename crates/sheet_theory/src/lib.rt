// A sheet of scenarios, answered in one go: its type, what is promised, what is computed, and laws. There is no code.
// No Result and no slice passes to C, so a sheet has a number, and beside its count an array for each field.
#![tactic(auto)]

// A sheet of up to 64 answers: number 0, how many there are, and at each place before that count the low and high ends
// of the median and of sigma, natural logarithms in units of 10^-9, beside the number 0, or zeros beside the number of
// the refusal; places from the count on hold zeros, and are no answers. Or number 14, more than 64 scenarios, and zeros
// for all else.
#[repr(C)]
#[derive(Clone, Copy)]
pub struct FlatSheet {
    pub number: u8,
    pub count: usize,
    pub median_low: [i64; 64],
    pub median_high: [i64; 64],
    pub sigma_low: [i64; 64],
    pub sigma_high: [i64; 64],
    pub numbers: [u8; 64],
}
