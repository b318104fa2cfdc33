// The step between two neighbouring rows of a table, by the logarithms of their periods.
#![tactic(auto)]

ghost use Rattle.std.specs.Prelude.{◌≡◌};
ghost use Rattle.logarithm_theory.specs.Promise.{LnDomain};
ghost use Rattle.logarithm_theory.specs.Evaluation.{ln_of};
ghost use Rattle.interpolation_theory.specs.Steps.{neighbours_of, step_of};
ghost use Rattle.interpolation_theory.specs.Evaluation.{no_pair};

use interpolation_theory::{Neighbours, Step};
use interval::exactly;
use interval_theory::SignedPair;

// Two neighbouring rows by their periods, T1 and T2. LnDomain stands
// here and below as in logarithm: any two numbers that meet it are taken.
pub fn neighbours(lower: u16, upper: u16) -> Neighbours
    requires { LnDomain upper lower }
    ensures { result ≡ neighbours_of lower upper }
{
    Neighbours {
        lower,
        upper,
        whole: logarithm::ln(upper as u64, lower as u64),
    }
}

// The step from one row to the next, with a period T between them: ln(T/T1) and ln(T2/T1).
pub fn step(near: Neighbours, period: u16) -> Step
    requires { LnDomain period near.lower × (near.whole ≡ ln_of near.upper near.lower) }
    ensures { result ≡ step_of period near.lower near.upper }
{
    let whole = near.whole;
    Step {
        period,
        lower: near.lower,
        upper: near.upper,
        part: logarithm::ln(period as u64, near.lower as u64),
        whole,
    }
}

// A pair of zeros, which stands for a row that there is not.
pub fn no_pair() -> SignedPair
    ensures { result ≡ no_pair }
{
    SignedPair {
        gain: exactly(0),
        loss: exactly(0),
    }
}
