// The median of Boore and Atkinson 2008, by two ends that enclose the exact value, in units of 10^-9.
#![tactic(auto)]

ghost use Rattle.std.specs.Prelude.{◌≡◌, ◌≤◌};
ghost use Rattle.interpolation_theory.specs.Evaluation.{two_rows_of};
ghost use Rattle.interval_theory.specs.Bound.{Sized};
ghost use Rattle.boore_atkinson_theory.specs.Sizes.{curve_most};
ghost use Rattle.boore_atkinson_theory.specs.Rows.{row_at};
ghost use Rattle.boore_atkinson_theory.specs.Promise.{MedianDomain, MedianEnds, NonlinearDomain, NonlinearEnds};
ghost use Rattle.boore_atkinson_theory.specs.Evaluation.{vs30_ln_of, curve_for, median_pair_of, median_of};
ghost use Rattle.boore_atkinson_theory.specs.Evaluation.{nonlinear_ends_of};

use boore_atkinson_rock as rock;
use boore_atkinson_site as site;
use boore_atkinson_tables as table;
use interpolation_theory::TwoRows;
use interval::{ends, exactly, plus};
use interval_theory::{Ends, SignedPair};
use period_step::no_pair;
use scenario_theory::{ProjectionDistance, Scenario};

// What the nonlinear part has over the slope, which all rows have in common: from 760 m/s on the slope is 0, p has no
// part in it, and 0 stands for it.
#[tactic(auto, unfolding(boore_atkinson_theory::specs::Evaluation::curve_for))]
fn curve_for(s: Scenario, d: ProjectionDistance) -> Ends<u64>
    requires { (500 ≤ s.magnitude) × (s.magnitude ≤ 800) × (d.0 ≤ 19_999) }
    ensures { (result ≡ curve_for s.velocity s.magnitude d.0 s.mechanism) × Sized result curve_most curve_most }
{
    if 7_600 <= s.velocity {
        return exactly(0);
    }
    site::curve(rock::minus_p(s.magnitude as u64, d, s.mechanism))
}

// The median by row k of the tables, 0 for PGA, as a gain less a loss. What rows have in common is worked out before:
// l, the absolute value of ln(V/760), and q, what the nonlinear part has over the slope.
// k stays a usize: MedianDomain, in the clauses of median, allows any below row_count; a row type is narrower.
fn median_by_row(
    k: usize,
    s: Scenario,
    d: ProjectionDistance,
    l: Ends<u64>,
    q: Ends<u64>,
) -> SignedPair
    requires median_domain { MedianDomain k s.magnitude d.0 s.velocity × (l ≡ vs30_ln_of s.velocity) }
    requires q_value { (q ≡ curve_for s.velocity s.magnitude d.0 s.mechanism) × Sized q curve_most curve_most }
    ensures { result ≡ median_pair_of (row_at k) s.magnitude d.0 s.velocity s.mechanism }
{
    let m = s.magnitude as u64;
    let v = s.velocity as u64;
    let row = table::distance_at(k);
    let effective = rock::effective_distance(d, row.4 as u64);
    let motion = rock::rock(row, table::magnitude_at(k), m, effective, s.mechanism);
    let terms = table::site_at(k);
    let linear = site::linear(terms, v, l);
    let nonlinear = site::nonlinear_part(terms, v, l, q);
    plus(plus(motion, linear), nonlinear)
}

// The median by row k.
pub fn median(k: usize, s: Scenario, distance: ProjectionDistance) -> Ends<i64>
    requires { MedianDomain k s.magnitude distance.0 s.velocity }
    ensures value { result ≡ median_of (row_at k) s.magnitude distance.0 s.velocity s.mechanism }
    ensures median_ends { MedianEnds (row_at k) s.magnitude distance.0 s.velocity s.mechanism result }
{
    let q = curve_for(s, distance);
    let l = site::vs30_ln(s.velocity as u64);
    ends(median_by_row(k, s, distance, l, q))
}

// The medians by row `last` and, where k is less, by the row before it. What rows have in common is worked out once: p,
// what the nonlinear part makes of it, and ln(V/760). One loop of one or two turns, in both models: a call for each row
// costs 28 instructions and more, and one loop for both would take the row's function, and ask what it may be called at
// and answers. k and last stay two numbers: any k up to last is taken, and a Place is narrower.
pub fn median_rows(k: usize, last: usize, s: Scenario, distance: ProjectionDistance) -> TwoRows
    requires { MedianDomain last s.magnitude distance.0 s.velocity × (k ≤ last) }
    ensures { result ≡ two_rows_of k last (λ j. median_pair_of (row_at j) s.magnitude distance.0 s.velocity
        s.mechanism) }
{
    let q = curve_for(s, distance);
    let l = site::vs30_ln(s.velocity as u64);
    let mut lower = no_pair();
    let mut upper = no_pair();
    for i in k..=last {
        lower = upper;
        upper = median_by_row(i, s, distance, l, q);
    }
    TwoRows { lower, upper }
}

// The nonlinear part by row k, where −p lies in b.
pub fn nonlinear(k: usize, vs30: u16, b: Ends<u64>) -> Ends<i64>
    requires { NonlinearDomain k vs30 b }
    ensures value { result ≡ nonlinear_ends_of (row_at k).site vs30 b }
    ensures nonlinear_ends { NonlinearEnds (row_at k).site vs30 b result }
{
    let v = vs30 as u64;
    ends(site::nonlinear_part(table::site_at(k), v, site::vs30_ln(v), site::curve(b)))
}
