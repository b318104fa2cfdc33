// Where a period stands in the tables of each model.
#![tactic(auto)]

ghost use Rattle.std.specs.Prelude.{◌≡◌, cond, ◌∷◌, ◌+◌, ◌≤◌, ◌<◌, eqb, length, get_or, Some};
ghost use Rattle.std.specs.List.Sorted.{IsStrictlyIncreasing};
ghost use Rattle.scenario_theory.specs.declared.Place.TheVariants as P;
ghost use Rattle.scenario_theory.specs.Refusal.{idriss, boore_atkinson};
ghost use Rattle.scenario_theory.specs.Rows.{row_count, place_among, idriss_place, boore_atkinson_place};

use scenario_theory::Place;

// Idriss's tabled periods, in thousandths of a second. They are static, since the compiler copies a const array to the
// stack at each look-up.
static IDRISS: [u16; 22] = [
    10, 20, 30, 40, 50, 75, 100, 150, 200, 250, 300, 400, 500, 750, 1_000, 1_500, 2_000, 3_000,
    4_000, 5_000, 7_500, 10_000,
];

// Boore-Atkinson's: the same without 40.
static BOORE_ATKINSON: [u16; 21] = [
    10, 20, 30, 50, 75, 100, 150, 200, 250, 300, 400, 500, 750, 1_000, 1_500, 2_000, 3_000, 4_000,
    5_000, 7_500, 10_000,
];

// Where a period stands in tables with these periods, the first of which has row `first`; the period 0 has row 0.
fn place(periods: &[u16], first: usize, period: u16) -> Option<Place>
    requires { IsStrictlyIncreasing periods.now × (length periods.now ≤ 22) × (first ≤ 1) }
    ensures { result ≡ cond (eqb period 0) (Some (P.Row 0)) (place_among first periods.now period) }
{
    if period == 0 {
        return Some(Place::Row(0));
    }
    match periods.binary_search(&period) {
        Ok(k) => Some(Place::Row(first + k)),
        Err(n) if 0 < n && n < periods.len() => Some(Place::Between(first + n - 1)),
        Err(_) => None,
    }
}

// Where a period stands in Idriss's tables, or that it is outside them.
#[tactic(auto, unfolding(scenario_theory::specs::Rows::idriss_place))]
pub fn idriss_place(period: u16) -> Option<Place>
    ensures { result ≡ idriss_place period }
{
    place(&IDRISS, 0, period)
}

// Where a period stands in Boore-Atkinson's tables, or that it is outside them.
#[tactic(auto, unfolding(scenario_theory::specs::Rows::boore_atkinson_place))]
pub fn boore_atkinson_place(period: u16) -> Option<Place>
    ensures { result ≡ boore_atkinson_place period }
{
    place(&BOORE_ATKINSON, 1, period)
}

// The period of row k of Idriss's tables.
pub fn idriss_period(k: usize) -> u16
    requires { k < row_count }
    ensures { result ≡ get_or idriss.periods k 0 }
{
    IDRISS[k]
}

// The period of row k of Boore-Atkinson's tables, 0 for PGA.
pub fn boore_atkinson_period(k: usize) -> u16
    requires { k < row_count }
    ensures { result ≡ get_or (0 ∷ boore_atkinson.periods) k 0 }
{
    if k == 0 {
        return 0;
    }
    BOORE_ATKINSON[k - 1]
}
