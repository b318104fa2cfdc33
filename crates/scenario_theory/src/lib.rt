// A scenario, the checks 9 for the distance, 13 and 1 to 6, and the rows of periods: types, definitions and laws. There
// is no code but that of its types.
#![tactic(auto)]

ghost use Rattle.std.specs.Prelude.{◌≡◌};
ghost use Rattle.scenario_theory.specs.Numbers.{refusal_number};
ghost use Rattle.scenario_theory.specs.Rows.{first_in, last_in, InTable};

// In 0.01 km, to the rupture: the distance that Idriss reads.
#[derive(Clone, Copy)]
pub struct RuptureDistance(pub u16);

// In 0.01 km, to the surface projection of the rupture: the distance that Boore and Atkinson read.
#[derive(Clone, Copy)]
pub struct ProjectionDistance(pub u16);

// The fields of document 01, 'The scenario', as whole numbers. Either distance may be absent, and has no number then.
// The model and the mechanism are the caller's numbers, any of which is answered or refused.
#[derive(Clone, Copy)]
pub struct Scenario {
    // 1 Idriss, 2 Boore-Atkinson
    pub model: u8,
    // in 0.01
    pub magnitude: u16,
    pub rupture: Option<RuptureDistance>,
    // V_S30, in 0.1 m/s
    pub velocity: u16,
    // 0 strike-slip, 1 normal, 2 reverse, 3 reverse oblique, 4 other oblique, 9 unspecified
    pub mechanism: u8,
    // in 0.001 s; 0 is peak acceleration
    pub period: u16,
    pub projection: Option<ProjectionDistance>,
}

// What a model takes: from the first number to the second, a distance from 0 on, and the mechanisms 0 to 3 and one
// other.
#[derive(Clone, Copy)]
pub struct ModelLimits {
    pub magnitude: (u16, u16),
    pub distance: u16,
    pub velocity: (u16, u16),
    pub mechanism: u8,
}

// Where a period that is answered stands in the tables of a model: it has row k, or lies between rows k and k + 1.
#[derive(Clone, Copy)]
pub enum Place {
    Row(usize),
    Between(usize),
}

impl Place {
    // The first and the last of its rows.
    pub fn first(self) -> usize
        ensures { result ≡ first_in self }
    {
        match self {
            Place::Row(k) => k,
            Place::Between(k) => k,
        }
    }

    pub fn last(self) -> usize
        requires { InTable self }
        ensures { result ≡ last_in self }
    {
        match self {
            Place::Row(k) => k,
            Place::Between(k) => k + 1,
        }
    }
}

// What an answer rests on: the model, the distance that it reads, and the place of the period in its tables.
#[derive(Clone, Copy)]
pub enum Basis {
    Idriss(RuptureDistance, Place),
    BooreAtkinson(ProjectionDistance, Place),
}

// Why a scenario, its record or a sheet of them is turned away; the numbers are document 01's, 'What is turned away',
// and document 02's, W-202, W-204 and W-206.
#[derive(Clone, Copy, PartialEq, Eq)]
pub enum Refusal {
    // the model is none of the two; the others are beyond the model's limits
    Model = 1,
    Magnitude = 2,
    Distance = 3,
    Velocity = 4,
    Mechanism = 5,
    Period = 6,
    // "cut short": the bytes end before the record does
    Truncated = 7,
    // "spare bit": the map has a bit that no field has
    ReservedBit = 8,
    // "wanting": a field without which there is no scenario is missing, or the distance that the model reads
    MissingField = 9,
    // "blank": the map has no bit
    EmptyMap = 10,
    // "plain default": a field is written with the number that it has where it is absent
    DefaultWritten = 11,
    // "page full": the lent bytes are fewer than the record's
    BufferTooShort = 12,
    // the surface projection is farther than the rupture
    ProjectionExceedsRupture = 13,
    // there are more than 64
    TooManyScenarios = 14,
    // no scenario of the sheet is accepted
    NoneAccepted = 15,
}

impl From<Refusal> for u8 {
    ghost from_gives = { λ e k. k ≡ refusal_number e };

    fn from(e: Refusal) -> u8 {
        e as u8
    }
}

// The periods of the two rows that a median rests on, equal where the period has a row of its own.
#[derive(Clone, Copy)]
pub struct RowPeriods {
    pub lower: u16,
    pub upper: u16,
}
