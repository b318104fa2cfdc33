// The site term: the linear part and the nonlinear part.
#![tactic(auto)]

ghost use Rattle.std.specs.Prelude.{◌≡◌, ◌≤◌, ◌<◌};
ghost use Rattle.interval_theory.specs.Bound.{Sized};
ghost use Rattle.boore_atkinson_theory.specs.Rows.{SiteLimits};
ghost use Rattle.boore_atkinson_theory.specs.Evaluation.{vs30_ln_of, linear_of, slow_slope_of, fast_slope_of};
ghost use Rattle.boore_atkinson_theory.specs.Evaluation.{slope_of, z_of, cubic_of, straight_of, branch_of, curve_of};
ghost use Rattle.boore_atkinson_theory.specs.Evaluation.{nonlinear_by};
ghost use Rattle.boore_atkinson_theory.specs.Constants.{minus_ln_a2};
ghost use Rattle.boore_atkinson_theory.specs.Tables.{Vref, V2, V1};
ghost use Rattle.interval_theory.specs.Bound.{SignedSized};
ghost use Rattle.boore_atkinson_theory.specs.Sizes.{linear_most, curve_most, nonlinear_most};

use boore_atkinson_theory::SiteRow;
use interval::{exactly, hull, multiple, product, sum};
use interval_theory::{Ends, SignedPair};

// SiteLimits, V1 ≤ v and l ≡ vs30_ln_of v stand in each contract: linear and nonlinear_part, which docs/CONTRACTS.md
// names, take any row, velocity and logarithm that meet them, and so no narrower type; and b.low ≤ b.high, as Ends
// holds any two numbers.

// ln(0.1/0.06), 1/ln(300/180), 1/ln(760/300), and c and d over the slope.
const MINUS_LN_LOW: Ends<u64> = Ends {
    low: 510_825_623,
    high: 510_825_624,
};

const OVER_SLOW: Ends<u64> = Ends {
    low: 1_957_615_188,
    high: 1_957_615_192,
};

const OVER_FAST: Ends<u64> = Ends {
    low: 1_075_805_610,
    high: 1_075_805_612,
};

const C_OVER: Ends<u64> = Ends {
    low: 97_587_419,
    high: 97_587_424,
};

const D_OVER: Ends<u64> = Ends {
    low: 216_959_882,
    high: 216_959_886,
};

// The absolute value of ln(V/760), which the linear part and the slope have in common.
#[tactic(auto, unfolding(boore_atkinson_theory::specs::Evaluation::vs30_ln_of))]
pub fn vs30_ln(v: u64) -> Ends<u64>
    requires { (V1 ≤ v) × (v ≤ 13_000) }
    ensures { result ≡ vs30_ln_of v }
{
    if v < 7_600 {
        return logarithm::ln(7_600, v);
    }
    logarithm::ln(v, 7_600)
}

// blin ln(V/760), where l is the absolute value of the logarithm.
pub fn linear(s: SiteRow, v: u64, l: Ends<u64>) -> SignedPair
    requires { SiteLimits s × (V1 ≤ v) × (v ≤ 13_000) × (l ≡ vs30_ln_of v) }
    ensures { (result ≡ linear_of s v) × SignedSized result 3 linear_most }
{
    let term = multiple(20_000 * s.0 as u64, l);
    if v < 7_600 {
        return SignedPair {
            gain: term,
            loss: exactly(0),
        };
    }
    SignedPair {
        gain: exactly(0),
        loss: term,
    }
}

// −bnl from 180 to 300 m/s.
fn slow_slope(s: SiteRow, v: u64) -> Ends<u64>
    requires { SiteLimits s × (V1 ≤ v) × (v ≤ V2) }
    ensures { (result ≡ slow_slope_of s v) × Sized result 6 900_000_000 }
{
    let ratio = product(logarithm::ln(3_000, v), OVER_SLOW);
    let b2 = s.2 as u64;
    sum(
        multiple(20_000 * (s.1 as u64 - 10 * b2), ratio),
        exactly(10_000_000 * b2),
    )
}

// −bnl from 300 to 760 m/s, where l is ln(760/V).
fn fast_slope(s: SiteRow, v: u64, l: Ends<u64>) -> Ends<u64>
    requires { SiteLimits s × (V2 ≤ v) × (v < Vref) × (l ≡ vs30_ln_of v) }
    ensures { (result ≡ fast_slope_of s v) × Sized result 6 900_000_000 }
{
    let ratio = product(l, OVER_FAST);
    multiple(200_000 * s.2 as u64, ratio)
}

// −bnl, where l is the absolute value of ln(V/760).
fn slope(s: SiteRow, v: u64, l: Ends<u64>) -> Ends<u64>
    requires { SiteLimits s × (V1 ≤ v) × (l ≡ vs30_ln_of v) }
    ensures { (result ≡ slope_of s v) × Sized result 6 900_000_000 }
{
    if v <= 1_800 {
        return exactly(1_000_000 * s.1 as u64);
    }
    if v <= 3_000 {
        return slow_slope(s, v);
    }
    if v < 7_600 {
        return fast_slope(s, v, l);
    }
    exactly(0)
}

// z = p − ln 0.03, where −p lies in b and p is above ln 0.03 and up to ln 0.09.
fn transition_z(b: Ends<u64>) -> Ends<u64>
    requires { (b.low ≤ b.high) × (b.low < 3_506_557_898) × (2_407_945_608 ≤ b.high) }
    ensures { (result ≡ z_of b) × Sized result 1_098_612_290 1_098_612_290 }
{
    Ends {
        low: 3_506_557_897 - b.high.min(3_506_557_897),
        high: 3_506_557_898 - b.low.max(2_407_945_608),
    }
}

// c z² + d z³ over the slope.
fn cubic(z: Ends<u64>) -> Ends<u64>
    requires { Sized z 1_098_612_290 1_098_612_290 }
    ensures { (result ≡ cubic_of z) × Sized result curve_most curve_most }
{
    let square = product(z, z);
    sum(product(C_OVER, square), product(D_OVER, product(square, z)))
}

// p − ln 0.1 − ln(0.06/0.1), where −p lies in b and p is above ln 0.09.
fn straight(b: Ends<u64>) -> Ends<u64>
    requires { (b.low ≤ b.high) × (b.low < 2_407_945_609) }
    ensures { (result ≡ straight_of b) × Sized result curve_most curve_most }
{
    Ends {
        low: 2_813_410_715 - b.high.min(2_407_945_609),
        high: 2_813_410_718 - b.low,
    }
}

// The branch or branches of p above ln 0.03.
fn upper(b: Ends<u64>) -> Ends<u64>
    requires { (b.low ≤ b.high) × (b.low < 3_506_557_898) }
    ensures { (result ≡ branch_of b minus_ln_a2 (cubic_of (z_of b)) (straight_of b)) ×
        Sized result curve_most curve_most }
{
    if 2_407_945_609 <= b.low {
        return cubic(transition_z(b));
    }
    let s = straight(b);
    if b.high < 2_407_945_608 {
        return s;
    }
    hull(cubic(transition_z(b)), s)
}

// What the nonlinear part has beside bnl ln(0.06/0.1), over the slope: every branch that b reaches.
pub fn curve(b: Ends<u64>) -> Ends<u64>
    requires { b.low ≤ b.high }
    ensures { (result ≡ curve_of b) × Sized result curve_most curve_most }
{
    if 3_506_557_898 <= b.low {
        return exactly(0);
    }
    let u = upper(b);
    if b.high < 3_506_557_897 {
        return u;
    }
    hull(exactly(0), u)
}

// The nonlinear part, where l is the absolute value of ln(V/760), and q is what it has over the slope. From 760 m/s on
// the slope is 0, and only the roundings are left.
pub fn nonlinear_part(s: SiteRow, v: u64, l: Ends<u64>, q: Ends<u64>) -> SignedPair
    requires { SiteLimits s × (V1 ≤ v) × (l ≡ vs30_ln_of v) × Sized q curve_most curve_most }
    ensures { (result ≡ nonlinear_by s v q) × SignedSized result nonlinear_most nonlinear_most }
{
    if 7_600 <= v {
        return SignedPair {
            gain: Ends { low: 0, high: 1 },
            loss: Ends { low: 0, high: 1 },
        };
    }
    let n = slope(s, v, l);
    SignedPair {
        gain: product(n, MINUS_LN_LOW),
        loss: product(n, q),
    }
}
