// What C is told and tells: plain structs, their definitions, what is promised of them, laws, and the ways between them
// and the engine's types. There is no other code.
// A flag or a number beside a value is the C interface, to which no Option or Result passes.
#![tactic(auto)]

ghost use Rattle.std.specs.Prelude.{◌≡◌};
ghost use Rattle.scenario_theory.specs.Distances.{rupture_number, projection_number};
ghost use Rattle.host_theory.specs.Told.{flagged_of, scenario_from, fields_of, no_fields, told_doubles, told_bounds};
ghost use Rattle.host_theory.specs.Told.{told_periods, told_reading, told_writing};

use engine_theory::DoublesAnswer;
use millionths_theory::MillionthsAnswer;
use record_theory::{Reading, Writing};
use scenario_theory::{ProjectionDistance, Refusal, RowPeriods, RuptureDistance, Scenario};

// The fields of a scenario, whole numbers: magnitude in 0.01, distances in 0.01 km, velocity V_S30 in 0.1 m/s, period
// in 0.001 s (0, which is peak acceleration, or from 10 to 10000). Mechanism: 0 strike-slip, 1 normal, 2 reverse,
// 3 reverse oblique, 4 other oblique, 9 unspecified. Each model reads its own distance: model 1, Idriss 2014, that to
// the rupture, model 2, Boore and Atkinson 2008, that to its surface projection; the other may stand. A distance whose
// flag is 0 is absent, and the number beside it is not looked at; with any other flag it stands.
#[repr(C)]
#[derive(Clone, Copy, Default)]
pub struct HostScenario {
    pub model: u8,
    pub rupture_present: u8,
    pub magnitude: u16,
    pub rupture_distance: u16,
    pub velocity: u16,
    pub mechanism: u8,
    pub projection_present: u8,
    pub period: u16,
    pub projection_distance: u16,
}

// The scenarios of a sheet, at the places from 0 on. Places from the count on are not read.
#[repr(C)]
#[derive(Clone, Copy)]
pub struct HostScenarios {
    pub places: [HostScenario; 64],
}

// A distance as C has it: its flag, 0 or 1, and its number, 0 where it is absent. It is the form of the two fields for
// each distance in HostScenario.
#[derive(Clone, Copy)]
pub struct Flagged {
    pub present: u8,
    pub distance: u16,
}

// The same with the ends as doubles that equal the whole numbers, still in units of 10^-9.
#[repr(C)]
#[derive(Clone, Copy)]
pub struct HostDoubles {
    pub number: u8,
    pub median_low: f64,
    pub median_high: f64,
    pub sigma_low: f64,
    pub sigma_high: f64,
}

// A median in millionths of g: number 0 and two whole numbers of millionths between which it lies, of which a low of 0
// sets no bound; or the number of the refusal, and zeros.
#[repr(C)]
#[derive(Clone, Copy)]
pub struct HostBounds {
    pub number: u8,
    pub low: u32,
    pub high: u32,
}

// The periods of two rows of a model's tables, in 0.001 s: number 0 and those of the rows that the median rests on, and
// the sigma of model 2, the one below the period and the one above it, equal where the period has a row of its own
// (peak acceleration, period 0, has 10 and 10 by model 1, and by model 2 the row PGA, 0 and 0); or the number of the
// refusal, 1 or 6, and zeros.
#[repr(C)]
#[derive(Clone, Copy)]
pub struct HostPeriods {
    pub number: u8,
    pub lower: u16,
    pub upper: u16,
}

// What is read: number 0, the scenario, with the flags 0 or 1 and 0 beside an absent distance, and how many bytes its
// record has (the rest of the bytes comes after them); or the number of the refusal, and zeros.
#[repr(C)]
#[derive(Clone, Copy)]
pub struct HostReading {
    pub number: u8,
    pub scenario: HostScenario,
    pub length: usize,
}

// What writing comes to: number 0 and how many bytes the record has; or the number of the refusal, and 0.
#[repr(C)]
#[derive(Clone, Copy)]
pub struct HostWriting {
    pub number: u8,
    pub length: usize,
}

// ---- the ways from and to C

// The scenario that C has.
impl From<HostScenario> for Scenario {
    ghost from_gives = { λ s x. x ≡ scenario_from s };

    fn from(s: HostScenario) -> Scenario {
        Scenario {
            model: s.model,
            magnitude: s.magnitude,
            rupture: (s.rupture_present != 0).then_some(RuptureDistance(s.rupture_distance)),
            velocity: s.velocity,
            mechanism: s.mechanism,
            period: s.period,
            projection: (s.projection_present != 0).then_some(ProjectionDistance(
                s.projection_distance,
            )),
        }
    }
}

// Each distance by its own type, so that neither can be taken for the other.
impl From<Option<RuptureDistance>> for Flagged {
    ghost from_gives = { λ d f. f ≡ flagged_of (rupture_number d) };

    fn from(rupture: Option<RuptureDistance>) -> Flagged {
        Flagged {
            present: rupture.is_some().into(),
            distance: rupture.map_or(0, |d| d.0),
        }
    }
}

impl From<Option<ProjectionDistance>> for Flagged {
    ghost from_gives = { λ d f. f ≡ flagged_of (projection_number d) };

    fn from(projection: Option<ProjectionDistance>) -> Flagged {
        Flagged {
            present: projection.is_some().into(),
            distance: projection.map_or(0, |d| d.0),
        }
    }
}

// The fields of a scenario for C.
impl From<Scenario> for HostScenario {
    ghost from_gives = { λ x s. s ≡ fields_of x };

    fn from(x: Scenario) -> HostScenario {
        let rupture = Flagged::from(x.rupture);
        let projection = Flagged::from(x.projection);
        HostScenario {
            model: x.model,
            magnitude: x.magnitude,
            rupture_present: rupture.present,
            rupture_distance: rupture.distance,
            velocity: x.velocity,
            mechanism: x.mechanism,
            period: x.period,
            projection_present: projection.present,
            projection_distance: projection.distance,
        }
    }
}

impl From<DoublesAnswer> for HostDoubles {
    ghost from_gives = { λ a r. r ≡ told_doubles a };

    fn from(a: DoublesAnswer) -> HostDoubles {
        match a {
            Ok(d) => HostDoubles {
                number: 0,
                median_low: d.median.low,
                median_high: d.median.high,
                sigma_low: d.sigma.low,
                sigma_high: d.sigma.high,
            },
            Err(refusal) => HostDoubles {
                number: refusal.into(),
                median_low: 0.0,
                median_high: 0.0,
                sigma_low: 0.0,
                sigma_high: 0.0,
            },
        }
    }
}

impl From<MillionthsAnswer> for HostBounds {
    ghost from_gives = { λ a r. r ≡ told_bounds a };

    fn from(a: MillionthsAnswer) -> HostBounds {
        match a {
            Ok(m) => HostBounds {
                number: 0,
                low: m.low,
                high: m.high,
            },
            Err(refusal) => HostBounds {
                number: refusal.into(),
                low: 0,
                high: 0,
            },
        }
    }
}

impl From<Result<RowPeriods, Refusal>> for HostPeriods {
    ghost from_gives = { λ a r. r ≡ told_periods a };

    fn from(a: Result<RowPeriods, Refusal>) -> HostPeriods {
        match a {
            Ok(rows) => HostPeriods {
                number: 0,
                lower: rows.lower,
                upper: rows.upper,
            },
            Err(refusal) => HostPeriods {
                number: refusal.into(),
                lower: 0,
                upper: 0,
            },
        }
    }
}

impl From<Reading> for HostReading {
    ghost from_gives = { λ a r. r ≡ told_reading a };

    fn from(a: Reading) -> HostReading {
        match a {
            Ok((x, length)) => HostReading {
                number: 0,
                scenario: x.into(),
                length,
            },
            Err(refusal) => HostReading {
                number: refusal.into(),
                scenario: HostScenario::default(),
                length: 0,
            },
        }
    }
}

impl From<Writing> for HostWriting {
    ghost from_gives = { λ a r. r ≡ told_writing a };

    fn from(a: Writing) -> HostWriting {
        match a {
            Ok(length) => HostWriting { number: 0, length },
            Err(refusal) => HostWriting {
                number: refusal.into(),
                length: 0,
            },
        }
    }
}
