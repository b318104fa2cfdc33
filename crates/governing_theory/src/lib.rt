// Which scenario of a sheet governs: its types, what is promised, what is computed, and laws. There is no code.
// No Option and no Result passes to C, so a screening has a number, and a position of 0 for none.
#![tactic(auto)]

// Which scenario of a sheet governs, and which others may. Number 0: the position of the accepted scenario with the
// greatest high end of the median, counted from 1, of equal ones the first; and a mark, 1, at the place, counted from
// 0, of each accepted scenario whose high end is at least the greatest low end among the accepted ones, and 0 at all
// other places. The median of an accepted scenario without a mark is less than that of some marked one. Or number 14,
// more than 64 scenarios, or 15, no scenario is accepted, and zeros for all else.
#[repr(C)]
#[derive(Clone, Copy)]
pub struct FlatScreening {
    pub number: u8,
    pub position: usize,
    pub marks: [u8; 64],
}

// The greatest end among some accepted places, and the first position that has it, counted from 1.
#[derive(Clone, Copy)]
pub struct Greatest {
    pub position: usize,
    pub end: i64,
}
