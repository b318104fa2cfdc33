// The neighbouring rows of each model's tables, by their periods, with ln(T2/T1).
#![tactic(auto)]

ghost use Rattle.std.specs.Prelude.{◌≡◌, ◌∷◌, ◌+◌, ◌≤◌, ◌<◌, get_or};
ghost use Rattle.interpolation_theory.specs.Steps.{neighbours_of};
ghost use Rattle.scenario_theory.specs.Refusal.{idriss, boore_atkinson};
ghost use Rattle.scenario_theory.specs.Rows.{row_count};

use interpolation_theory::Neighbours;
use period_step::neighbours;
use scenario_rows::{boore_atkinson_period, idriss_period};

// k stays a usize: docs/CONTRACTS.md names both functions for any k that the clause allows; a row type is narrower.
// They differ in the list and in where it begins: one for both would take the list, which each caller would name.

// Row k of Idriss's tables and the next.
pub fn idriss_neighbours(k: usize) -> Neighbours
    requires { k + 1 < row_count }
    ensures { result ≡ neighbours_of (get_or idriss.periods k 0) (get_or idriss.periods (k + 1) 0) }
{
    neighbours(idriss_period(k), idriss_period(k + 1))
}

// Row k of Boore-Atkinson's tables and the next. The row PGA, row 0, is no neighbour.
pub fn boore_atkinson_neighbours(k: usize) -> Neighbours
    requires { (1 ≤ k) × (k + 1 < row_count) }
    ensures { result ≡ neighbours_of (get_or (0 ∷ boore_atkinson.periods) k 0)
        (get_or (0 ∷ boore_atkinson.periods) (k + 1) 0) }
{
    neighbours(boore_atkinson_period(k), boore_atkinson_period(k + 1))
}
