// The value between two rows of a table, in whole units of 10^-9, rounded outward.
#![tactic(auto)]

ghost use Rattle.std.specs.Prelude.{◌≡◌, ◌^◌, ◌≤◌};
ghost use Rattle.interpolation_theory.specs.Evaluation.{part_down, part_up, PartDomain};
ghost use Rattle.interpolation_theory.specs.Evaluation.{interpolated_of, InterpolationDomain};

use interval::between;
use interval_theory::{Ends, SignedPair};

// What `above` exceeds `below` by, times t/u, rounded down. The test spares the division, which saturating_sub would
// leave to be made.
#[tactic(auto, unfolding(interpolation_theory::specs::Evaluation::part_down))]
fn part_down(above: u64, below: u64, t: u64, u: u64) -> u64
    requires { PartDomain above below t u }
    ensures { (result ≡ part_down above below t u) × (result ≤ 2 ^ 62) }
{
    if above <= below {
        return 0;
    }
    (above - below) * t / u
}

// The same rounded up.
fn part_up(above: u64, below: u64, t: u64, u: u64) -> u64
    requires { PartDomain above below t u }
    ensures { (result ≡ part_up above below t u) × (result ≤ 2 ^ 62) }
{
    if above <= below {
        return 0;
    }
    part_down(above, below, t, u) + 1
}

// a + (b − a) t/u, for t and u anywhere between their ends.
pub fn interpolated(a: SignedPair, b: SignedPair, t: Ends<u64>, u: Ends<u64>) -> Ends<i64>
    requires { InterpolationDomain a b t u }
    ensures { result ≡ interpolated_of a b t u }
{
    let gain = a.gain;
    let loss = a.loss;
    let next_gain = b.gain;
    let next_loss = b.loss;
    let above = next_gain.low + loss.high;
    let below = gain.low + next_loss.high;
    let over = next_gain.high + loss.low;
    let under = gain.high + next_loss.low;
    between(
        gain.low + part_down(above, below, t.low, u.high),
        loss.high + part_up(below, above, t.high, u.low) + 1,
        gain.high + part_up(over, under, t.high, u.low) + 1,
        loss.low + part_down(under, over, t.low, u.high),
    )
}
