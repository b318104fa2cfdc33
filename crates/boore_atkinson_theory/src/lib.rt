// Boore and Atkinson 2008: the tables and equations, what is computed, what is promised, and laws. There is no code.
#![tactic(auto)]

use interval_theory::Ends;

// The distance R = √(RJB² + h²), by ln R² and by R in km.
#[derive(Clone, Copy)]
pub struct EffectiveDistance {
    pub ln: Ends<u64>,
    pub km: Ends<u64>,
}

// gain − loss. Exact and SignedPair stay two: the definitions name each, and one type over ends and numbers would need
// a name for either again.
#[derive(Clone, Copy)]
pub struct Exact {
    pub gain: u64,
    pub loss: u64,
}

// −blin, −b1, −b2.
#[derive(Clone, Copy)]
pub struct SiteRow(pub u32, pub u32, pub u32);

// −c1, c2, −c2, −c3, h; of a number and its negative, the one below zero stands as 0.
#[derive(Clone, Copy)]
pub struct DistanceRow(pub u32, pub u32, pub u32, pub u32, pub u32);

// e1, −e1, e2, −e2, e3, −e3, e4, −e4, e5, −e6, e7, Mh.
#[derive(Clone, Copy)]
pub struct MagnitudeRow(
    pub u32,
    pub u32,
    pub u32,
    pub u32,
    pub u32,
    pub u32,
    pub u32,
    pub u32,
    pub u32,
    pub u32,
    pub u32,
    pub u32,
);

// σTU, σTM.
#[derive(Clone, Copy)]
pub struct TotalRow(pub u32, pub u32);
