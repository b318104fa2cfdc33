// Sigma of Idriss 2014, by two ends that enclose the exact value, in units of 10^-9.
#![tactic(auto)]

ghost use Rattle.std.specs.Prelude.{◌≡◌, ◌≤◌};
ghost use Rattle.interval_theory.specs.Bound.{Sized};
ghost use Rattle.interval_theory.specs.Signed.{ends_of};
ghost use Rattle.logarithm_theory.specs.Promise.{LnDomain};
ghost use Rattle.idriss_theory.specs.Promise.{SigmaEnds};
ghost use Rattle.idriss_theory.specs.Evaluation.{period_term_of, sigma_pair_of, sigma_of};
ghost use Rattle.idriss_theory.specs.Sizes.{period_term_most};

use interval_theory::Ends;

// 0.035 ln(a/b), by the engine's own logarithm.
fn period_term(a: u64, b: u64) -> Ends<u64>
    requires { LnDomain a b }
    ensures { (result ≡ period_term_of a b) × Sized result 2 period_term_most }
{
    interval::multiple(700_000, logarithm::ln(a, b))
}

// 1.18 + 0.035 ln T − 0.06 M, of a T and an M that are clamped. Below 1 s ln T is −ln(1/T).
fn clamped_sigma(t: u64, m: u64) -> Ends<i64>
    requires { (50 ≤ t) × (t ≤ 3_000) × (m ≤ 750) }
    ensures { result ≡ ends_of (sigma_pair_of t m) }
{
    let magnitude_term = 600_000 * m;
    if t < 1_000 {
        let term = period_term(1_000, t);
        return interval::between(
            1_180_000_000,
            magnitude_term + term.high,
            1_180_000_000,
            magnitude_term + term.low,
        );
    }
    let term = period_term(t, 1_000);
    interval::between(
        1_180_000_000 + term.low,
        magnitude_term,
        1_180_000_000 + term.high,
        magnitude_term,
    )
}

// Sigma at any period and magnitude. Where T is a limit of its range, the compiler works ln T out.
pub fn sigma(period: u16, magnitude: u16) -> Ends<i64>
    ensures value { result ≡ sigma_of period magnitude }
    ensures sigma_ends { SigmaEnds period magnitude result }
{
    let m = (magnitude as u64).clamp(500, 750);
    if period <= 50 {
        return clamped_sigma(50, m);
    }
    if 3_000 <= period {
        return clamped_sigma(3_000, m);
    }
    clamped_sigma(period as u64, m)
}
