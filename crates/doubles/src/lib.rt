// The ends of an answer as doubles that equal them.
#![tactic(auto)]

ghost use Rattle.std.specs.Prelude.{◌≡◌, ◌^◌, ◌<◌, nat_abs};
ghost use Rattle.engine_theory.specs.Evaluation.{SmallEnclosure, double_of, doubles_of};

use engine_theory::Enclosure;
use interval_theory::Ends;

// A whole number that a double holds.
fn double(z: i64) -> f64
    requires { nat_abs z < 2 ^ 53 }
    ensures { result ≡ double_of z }
{
    z as f64
}

// The four ends of an answer, each as a double. A function and no From: it asks that the ends are small, and From takes
// any.
pub fn as_doubles(e: Enclosure<i64>) -> Enclosure<f64>
    requires { SmallEnclosure e }
    ensures { result ≡ doubles_of e }
{
    Enclosure {
        median: Ends {
            low: double(e.median.low),
            high: double(e.median.high),
        },
        sigma: Ends {
            low: double(e.sigma.low),
            high: double(e.sigma.high),
        },
    }
}
