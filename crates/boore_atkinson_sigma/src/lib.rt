// Sigma of Boore and Atkinson 2008, by two ends that equal the printed total, in units of 10^-9.
#![tactic(auto)]

ghost use Rattle.std.specs.Prelude.{◌≡◌, cond, ◌+◌, ◌≤◌, ◌<◌, eqb};
ghost use Rattle.interpolation_theory.specs.Evaluation.{two_rows_of};
ghost use Rattle.scenario_theory.specs.Rows.{row_count};
ghost use Rattle.boore_atkinson_theory.specs.Rows.{total_at};
ghost use Rattle.boore_atkinson_theory.specs.Promise.{SigmaEnds};
ghost use Rattle.boore_atkinson_theory.specs.Evaluation.{exact_pair, sigma_pair_of, sigma_of};

use boore_atkinson_tables as table;
use boore_atkinson_theory::TotalRow;
use interpolation_theory::TwoRows;
use interval::{between, exactly};
use interval_theory::{Ends, SignedPair};

// The total for a fault type that is unspecified, code 9, or specified.
// The code stays a number: sigma_of answers for any, and a type of the accepted codes would ask more.
fn total(t: TotalRow, mechanism: u8) -> u32
    ensures { result ≡ cond (eqb mechanism 9) t.0 t.1 }
{
    if mechanism == 9 { t.0 } else { t.1 }
}

// Sigma by row k, in units of 10^-9.
// k stays a usize: docs/CONTRACTS.md names sigma for any k below row_count, and a type of rows would be narrower.
fn sigma_by_row(k: usize, mechanism: u8) -> u64
    requires { k < row_count }
    ensures { (sigma_pair_of (total_at k) mechanism ≡ exact_pair result) × (result ≤ 1_000_000_000) }
{
    1_000_000 * total(table::total_at(k), mechanism) as u64
}

// Sigma by row k.
pub fn sigma(k: usize, mechanism: u8) -> Ends<i64>
    requires { k < row_count }
    ensures value { result ≡ sigma_of (total_at k) mechanism }
    ensures sigma_ends { SigmaEnds (total_at k) mechanism result }
{
    let z = sigma_by_row(k, mechanism);
    between(z, 0, z, 0)
}

// Equal ends that are not below zero, as a gain.
fn exact_pair(n: u64) -> SignedPair
    ensures { result ≡ exact_pair n }
{
    SignedPair {
        gain: exactly(n),
        loss: exactly(0),
    }
}

// Sigma by the rows k and k + 1.
pub fn sigma_rows(k: usize, mechanism: u8) -> TwoRows
    requires { k + 1 < row_count }
    ensures { result ≡ two_rows_of k (k + 1) (λ j. sigma_pair_of (total_at j) mechanism) }
{
    TwoRows {
        lower: exact_pair(sigma_by_row(k, mechanism)),
        upper: exact_pair(sigma_by_row(k + 1, mechanism)),
    }
}
