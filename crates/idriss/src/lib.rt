// The median of Idriss 2014, by two ends that enclose the exact value, in units of 10^-9.
#![tactic(auto)]

ghost use Rattle.std.specs.Prelude.{◌≡◌, ◌≤◌, ◌<◌};
ghost use Rattle.interval_theory.specs.Bound.{Sized};
ghost use Rattle.logarithm_theory.specs.Promise.{ln_width};
ghost use Rattle.logarithm_theory.specs.Bound.{ln_most};
ghost use Rattle.interpolation_theory.specs.Evaluation.{two_rows_of};
ghost use Rattle.scenario_theory.specs.Rows.{row_count};
ghost use Rattle.idriss_theory.specs.Rows.{row_at, RowLimits};
ghost use Rattle.idriss_theory.specs.Median.{F};
ghost use Rattle.idriss_theory.specs.Promise.{MedianDomain, MedianEnds};
ghost use Rattle.idriss_theory.specs.Evaluation.{AlphaDomain, alpha_sum, gains_of, losses_of, distance_ln_of};
ghost use Rattle.idriss_theory.specs.Evaluation.{vs30_ln_of};
ghost use Rattle.idriss_theory.specs.Evaluation.{distance_term_of, site_term_of, median_pair_by, median_pair_of};
ghost use Rattle.idriss_theory.specs.Evaluation.{median_of};
ghost use Rattle.idriss_theory.specs.Sizes.{alpha_most, exact_most, distance_term_most, site_term_most};

use idriss_tables as table;
use idriss_theory::Row;
use interpolation_theory::TwoRows;
use interval_theory::{Ends, SignedPair};
use period_step::no_pair;
use scenario_theory::{RuptureDistance, Scenario};

// a1 + a2 M + a3 (8.5 − M)², where none of the three is below zero.
#[tactic(auto, unfolding(idriss_theory::specs::Evaluation::alpha_sum))]
fn alpha_sum(a1: u32, a2: u32, a3: u32, m: u64) -> u64
    requires { AlphaDomain a1 a2 a3 m }
    ensures { (result ≡ alpha_sum a1 a2 a3 m) × (result ≤ alpha_most) }
{
    let rest = 850 - m;
    100_000 * a1 as u64 + 1_000 * (a2 as u64 * m) + 10 * (a3 as u64 * (rest * rest))
}

// F, by the code of the mechanism.
// The code stays a number: F of the definitions answers for any, and a type of the accepted codes would ask more.
#[tactic(auto, unfolding(idriss_theory::specs::Median::F))]
fn faulting(mechanism: u8) -> u64
    ensures { (result ≡ F mechanism) × (result ≤ 1) }
{
    match mechanism {
        2 | 3 | 4 => 1,
        _ => 0,
    }
}

// RowLimits and M from 4.5 to 7.9 stand in each contract: Row, a public type, holds any parts, and keeps no invariant;
// m is a plain number, as gains_of takes it.

// The parts of α1 + α2 M + α3 (8.5 − M)² + γ R + φ F that are above zero.
#[tactic(auto, unfolding(idriss_theory::specs::Evaluation::gains_of))]
fn gains(r: Row, m: u64, mechanism: u8) -> u64
    requires { RowLimits r × (450 ≤ m) × (m ≤ 790) }
    ensures { (result ≡ gains_of r m mechanism) × (result ≤ exact_most) }
{
    alpha_sum(r.0, r.2, r.4, m) + 10_000_000 * (r.10 as u64 * faulting(mechanism))
}

// Those that are below zero.
#[tactic(auto, unfolding(idriss_theory::specs::Evaluation::losses_of))]
fn losses(r: Row, m: u64, rupture_distance: u64) -> u64
    requires { RowLimits r × (450 ≤ m) × (m ≤ 790) × (rupture_distance ≤ 17_500) }
    ensures { (result ≡ losses_of r m rupture_distance) × (result ≤ exact_most) }
{
    alpha_sum(r.1, r.3, r.5, m) + 1_000 * (r.9 as u64 * rupture_distance)
}

// ln(R + 10).
fn distance_ln(rupture_distance: u64) -> Ends<u64>
    requires { rupture_distance ≤ 17_500 }
    ensures { (result ≡ distance_ln_of rupture_distance) × Sized result ln_width ln_most }
{
    logarithm::ln_hundredths(rupture_distance + 1_000)
}

// ln V; a V above 1200 m/s counts as 1200.
fn vs30_ln(vs30: u64) -> Ends<u64>
    requires { 4_500 ≤ vs30 }
    ensures { (result ≡ vs30_ln_of vs30) × Sized result ln_width ln_most }
{
    logarithm::ln(vs30.min(12_000), 10)
}

// (β1 + β2 M) ln(R + 10), by that logarithm.
fn distance_term(r: Row, m: u64, l: Ends<u64>) -> Ends<u64>
    requires { RowLimits r × (450 ≤ m) × (m ≤ 790) × Sized l ln_width ln_most }
    ensures { (result ≡ distance_term_of r m l) × Sized result 5 distance_term_most }
{
    interval::multiple(2_000 * r.6 as u64 - 20 * (r.7 as u64 * m), l)
}

// −ξ ln V, by that logarithm.
fn site_term(r: Row, l: Ends<u64>) -> Ends<u64>
    requires { RowLimits r × Sized l ln_width ln_most }
    ensures { (result ≡ site_term_of r l) × Sized result 4 site_term_most }
{
    interval::multiple(20_000 * r.8 as u64, l)
}

// The median by row k of Table 3 where `table_3`, else of Table 2, as a gain less a loss. What rows have in common is
// worked out before: ln(R + 10) and ln V. `table_3` stays a bool, as in idriss_tables, and k a usize: MedianDomain has
// it below row_count. What rows share passes in parts: a struct of it would be named in the one function that reads it.
#[tactic(auto, unfolding(interval_theory::specs::Natural::sum_of, idriss_theory::specs::Evaluation::median_pair_by))]
fn median_by_row(
    table_3: bool,
    k: usize,
    s: Scenario,
    d: u64,
    ln_r: Ends<u64>,
    ln_v: Ends<u64>,
) -> SignedPair
    requires k_lt_row_count { (k < row_count) × (450 ≤ s.magnitude) × (s.magnitude ≤ 790) × (d ≤ 17_500) }
    requires sized { Sized ln_r ln_width ln_most × Sized ln_v ln_width ln_most }
    ensures { result ≡ median_pair_by (row_at table_3 k) s.magnitude d ln_r ln_v s.mechanism }
{
    let r = table::row_at(table_3, k);
    let m = s.magnitude as u64;
    let far = distance_term(r, m, ln_r);
    let site = site_term(r, ln_v);
    let up = gains(r, m, s.mechanism);
    let down = losses(r, m, d);
    SignedPair {
        gain: interval::exactly(up),
        loss: Ends {
            low: down + far.low + site.low,
            high: down + far.high + site.high,
        },
    }
}

// The median by row k of that table.
pub fn median(table_3: bool, k: usize, s: Scenario, distance: RuptureDistance) -> Ends<i64>
    requires { MedianDomain k s.magnitude distance.0 s.velocity }
    ensures value { result ≡ median_of (row_at table_3 k) s.magnitude distance.0 s.velocity s.mechanism }
    ensures median_ends { MedianEnds (row_at table_3 k) s.magnitude distance.0 s.velocity s.mechanism result }
{
    let d = distance.0 as u64;
    let ln_r = distance_ln(d);
    let ln_v = vs30_ln(s.velocity as u64);
    interval::ends(median_by_row(table_3, k, s, d, ln_r, ln_v))
}

// The medians by row `last` of that table and, where k is less, by the row before it. What rows have in common is
// worked out once: ln(R + 10) and ln V. One loop of one or two turns, in both models: a call for each row costs 28
// instructions and more, and one loop for both would take the row's function, and ask what it may be called at and
// answers. k and last stay two numbers: any k up to last is taken, and a Place is narrower.
pub fn median_rows(
    table_3: bool,
    k: usize,
    last: usize,
    s: Scenario,
    distance: RuptureDistance,
) -> TwoRows
    requires { MedianDomain last s.magnitude distance.0 s.velocity × (k ≤ last) }
    ensures { result ≡ two_rows_of k last (λ j. median_pair_of (row_at table_3 j) s.magnitude distance.0 s.velocity
        s.mechanism) }
{
    let d = distance.0 as u64;
    let ln_r = distance_ln(d);
    let ln_v = vs30_ln(s.velocity as u64);
    let mut lower = no_pair();
    let mut upper = no_pair();
    for i in k..=last {
        lower = upper;
        upper = median_by_row(table_3, i, s, d, ln_r, ln_v);
    }
    TwoRows { lower, upper }
}
