// The motion on rock: the distance term and the magnitude term.
#![tactic(auto)]

ghost use Rattle.std.specs.Prelude.{◌≡◌, ◌≤◌, ◌+◌, ◌*◌};
ghost use Rattle.interval_theory.specs.Bound.{Sized};
ghost use Rattle.boore_atkinson_theory.specs.Rows.{DistanceLimits, MagnitudeLimits};
ghost use Rattle.boore_atkinson_theory.specs.Evaluation.{effective_of, spread_of, fall_of, level_of, magnitude_of};
ghost use Rattle.boore_atkinson_theory.specs.Evaluation.{rock_of};
ghost use Rattle.boore_atkinson_theory.specs.Evaluation.{minus_p_of};
ghost use Rattle.boore_atkinson_theory.specs.Sizes.{EffectiveSized, MagnitudeBounds, Small, term_most, rock_most};
ghost use Rattle.interval_theory.specs.Bound.{SignedSized};

use boore_atkinson_tables as table;
use boore_atkinson_theory::{DistanceRow, EffectiveDistance, Exact, MagnitudeRow};
use interval::exactly;
use interval_theory::{Ends, SignedPair};
use scenario_theory::ProjectionDistance;

// DistanceLimits and a magnitude from 5 to 8 stand in each contract: rock and minus_p, which docs/CONTRACTS.md names,
// take any that meet them, and so no narrower type.

// The row of peak acceleration in the tables.
const PGA: usize = 0;

// R, from a projection distance and h.
pub fn effective_distance(projection_distance: ProjectionDistance, h: u64) -> EffectiveDistance
    requires { (projection_distance.0 ≤ 19_999) × (100 ≤ h) × (h ≤ 400) }
    ensures { (result ≡ effective_of projection_distance.0 h) × EffectiveSized result }
{
    let d = projection_distance.0 as u64;
    let x = d * d + h * h;
    let k = logarithm::root(x);
    EffectiveDistance {
        ln: logarithm::ln(x, 10_000),
        km: Ends {
            low: k * 78_125 / 1_024,
            high: (k + 1) * 78_125 / 1_024 + 1,
        },
    }
}

// −(c1 + c2 (M − Mref)), in 10^-7.
fn spread(r: DistanceRow, m: u64) -> u64
    requires { DistanceLimits r × (500 ≤ m) × (m ≤ 800) }
    ensures { (result ≡ spread_of r m) × (result ≤ 8_400_000) }
{
    let away = m - 450;
    100 * r.0 as u64 + r.2 as u64 * away - r.1 as u64 * away
}

// −(c1 + c2 (M − Mref)) ln R − c3 R.
fn fall(r: DistanceRow, m: u64, s: EffectiveDistance) -> Ends<u64>
    requires { DistanceLimits r × (500 ≤ m) × (m ≤ 800) × EffectiveSized s }
    ensures { (result ≡ fall_of r m s) × Sized result 4 12_700_000_000 }
{
    let spreading = interval::multiple(spread(r, m), s.ln);
    let anelastic = interval::multiple(200 * r.3 as u64, s.km);
    interval::sum(spreading, anelastic)
}

// e, by the code of the mechanism.
// The code stays a number: level_of answers for any, and a type of the accepted codes would ask more.
#[tactic(auto, unfolding(boore_atkinson_theory::specs::Evaluation::level_of))]
fn level(r: MagnitudeRow, mechanism: u8) -> Exact
    requires { MagnitudeLimits r }
    ensures { (result ≡ level_of r mechanism) × Small result 3_000_000_000 }
{
    let (gain, loss) = match mechanism {
        9 => (r.0, r.1),
        0 => (r.2, r.3),
        1 => (r.4, r.5),
        _ => (r.6, r.7),
    };
    Exact {
        gain: 10_000 * gain as u64,
        loss: 10_000 * loss as u64,
    }
}

// The magnitude term, exactly.
#[tactic(auto, unfolding(boore_atkinson_theory::specs::Evaluation::magnitude_of))]
fn magnitude_term(r: MagnitudeRow, m: u64, mechanism: u8) -> Exact
    requires { MagnitudeLimits r × MagnitudeBounds r m }
    ensures { (result ≡ magnitude_of r m mechanism) × Small result term_most }
{
    let e = level(r, mechanism);
    let hinge = r.11 as u64;
    if m <= hinge {
        let away = hinge - m;
        return Exact {
            gain: e.gain,
            loss: e.loss + 100 * (r.8 as u64 * away) + r.9 as u64 * (away * away),
        };
    }
    let away = m - hinge;
    Exact {
        gain: e.gain + 100 * (r.10 as u64 * away),
        loss: e.loss,
    }
}

// The motion on rock by a row's two parts.
// m and the mechanism stay two numbers here and in minus_p: rock_of and minus_p_of take them so, and no scenario.
pub fn rock(
    r: DistanceRow,
    q: MagnitudeRow,
    m: u64,
    s: EffectiveDistance,
    mechanism: u8,
) -> SignedPair
    requires { DistanceLimits r × MagnitudeLimits q × (500 ≤ m) × (m ≤ 800) × EffectiveSized s }
    ensures { (result ≡ rock_of r q m s mechanism) × SignedSized result 4 rock_most }
{
    let f = fall(r, m, s);
    let g = magnitude_term(q, m, mechanism);
    SignedPair {
        gain: exactly(g.gain + 10_000 * r.3 as u64),
        loss: Ends {
            low: g.loss + f.low,
            high: g.loss + f.high,
        },
    }
}

// −p, p the logarithm of the rock acceleration.
pub fn minus_p(m: u64, projection_distance: ProjectionDistance, mechanism: u8) -> Ends<u64>
    requires { (500 ≤ m) × (m ≤ 800) × (projection_distance.0 ≤ 19_999) }
    ensures { (result ≡ minus_p_of m projection_distance.0 mechanism) × Sized result 4 rock_most }
{
    let r = table::distance_at(PGA);
    let s = effective_distance(projection_distance, r.4 as u64);
    let a = rock(r, table::magnitude_at(PGA), m, s, mechanism);
    Ends {
        low: a.loss.low - a.gain.low,
        high: a.loss.high - a.gain.low,
    }
}
