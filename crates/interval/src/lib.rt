// Steps with intervals in whole units of 10^-9, rounded outward: with pairs of ends that are not below zero, and with
// signed pairs.
#![tactic(auto)]

ghost use Rattle.std.specs.Prelude.{◌≡◌, ◌^◌, ◌<◌};
ghost use Rattle.std.specs.Ordering.{ord_min, ord_max};
ghost use Rattle.interval_theory.specs.Natural.{MultipleDomain, ProductDomain, QuotientDomain, SumDomain, multiple_of};
ghost use Rattle.interval_theory.specs.Natural.{exactly, product_of, quotient_of, sum_of};
ghost use Rattle.interval_theory.specs.Signed.{Moderate, TimesDomain, plus_of, minus_of, times_of};
ghost use Rattle.interval_theory.specs.Signed.{between_of};
ghost use Rattle.interval_theory.specs.Signed.{ends_of};

use interval_theory::{Ends, SignedPair};

// The steps are functions and no methods or operators: an impl stands in the crate of its type, and what rounds is kept
// out of interval_theory, on whose check the definitions of both models wait.

// Equal ends.
pub fn exactly(n: u64) -> Ends<u64>
    ensures { result ≡ exactly n }
{
    Ends { low: n, high: n }
}

// c/20,000,000 of what lies between e's ends.
#[tactic(auto, unfolding(interval_theory::specs::Natural::multiple_of))]
pub fn multiple(c: u64, e: Ends<u64>) -> Ends<u64>
    requires { MultipleDomain c e }
    ensures { result ≡ multiple_of c e }
{
    Ends {
        low: c * e.low / 20_000_000,
        high: c * e.high / 20_000_000 + 1,
    }
}

// What lies between a's ends times what lies between b's.
#[tactic(auto, unfolding(interval_theory::specs::Natural::product_of))]
pub fn product(a: Ends<u64>, b: Ends<u64>) -> Ends<u64>
    requires { ProductDomain a b }
    ensures { result ≡ product_of a b }
{
    Ends {
        low: a.low * b.low / 1_000_000_000,
        high: a.high * b.high / 1_000_000_000 + 1,
    }
}

// What lies between a's ends over what lies between b's, which are above zero.
#[tactic(auto, unfolding(interval_theory::specs::Natural::quotient_of))]
pub fn quotient(a: Ends<u64>, b: Ends<u64>) -> Ends<u64>
    requires { QuotientDomain a b }
    ensures { result ≡ quotient_of a b }
{
    Ends {
        low: a.low * 1_000_000_000 / b.high,
        high: a.high * 1_000_000_000 / b.low + 1,
    }
}

// What lies between a's ends and what lies between b's, added.
#[tactic(auto, unfolding(interval_theory::specs::Natural::sum_of))]
pub fn sum(a: Ends<u64>, b: Ends<u64>) -> Ends<u64>
    requires { SumDomain a b }
    ensures { result ≡ sum_of a b }
{
    Ends {
        low: a.low + b.low,
        high: a.high + b.high,
    }
}

// From the lesser low end to the greater high end.
pub fn hull<T: Ord + Copy>(a: Ends<T>, b: Ends<T>) -> Ends<T>
    ensures low { result.low ≡ ord_min T.cmp a.low b.low }
    ensures high { result.high ≡ ord_max T.cmp a.high b.high }
{
    Ends {
        low: a.low.min(b.low),
        high: a.high.max(b.high),
    }
}

// Moderate stands in plus, minus and ends, which take any pair that meets it; a type with an invariant is narrower.

// Two signed pairs added.
#[tactic(auto, unfolding(interval_theory::specs::Signed::plus_of))]
pub fn plus(a: SignedPair, b: SignedPair) -> SignedPair
    requires { Moderate a × Moderate b }
    ensures { result ≡ plus_of a b }
{
    SignedPair {
        gain: sum(a.gain, b.gain),
        loss: sum(a.loss, b.loss),
    }
}

// a − b.
#[tactic(auto, unfolding(interval_theory::specs::Signed::minus_of))]
pub fn minus(a: SignedPair, b: SignedPair) -> SignedPair
    requires { Moderate a × Moderate b }
    ensures { result ≡ minus_of a b }
{
    SignedPair {
        gain: sum(a.gain, b.loss),
        loss: sum(a.loss, b.gain),
    }
}

// A signed pair times what lies between e's ends.
#[tactic(auto, unfolding(interval_theory::specs::Signed::times_of))]
pub fn times(a: SignedPair, e: Ends<u64>) -> SignedPair
    requires { TimesDomain a e }
    ensures { result ≡ times_of a e }
{
    SignedPair {
        gain: product(a.gain, e),
        loss: product(a.loss, e),
    }
}

// From a − b to c − d.
#[tactic(auto, using(signed_theory::proofs::Laws::subtracted), unfolding(interval_theory::specs::Signed::between_of))]
pub fn between(a: u64, b: u64, c: u64, d: u64) -> Ends<i64>
    requires { (a < 2 ^ 63) × (b < 2 ^ 63) × (c < 2 ^ 63) × (d < 2 ^ 63) }
    ensures { result ≡ between_of a b c d }
{
    Ends {
        low: a as i64 - b as i64,
        high: c as i64 - d as i64,
    }
}

// The ends of a signed pair.
#[tactic(auto, unfolding(interval_theory::specs::Signed::ends_of))]
pub fn ends(a: SignedPair) -> Ends<i64>
    requires { Moderate a }
    ensures { result ≡ ends_of a }
{
    between(a.gain.low, a.loss.high, a.gain.high, a.loss.low)
}
