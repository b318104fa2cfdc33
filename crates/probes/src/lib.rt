// The leaves for tests outside Rattle: functions on any numbers and bytes, which a C program can call.
#![tactic(auto)]

ghost use Rattle.std.specs.Prelude.{◌≡◌, length, get_or};
ghost use Rattle.record_theory.specs.Outcome.{rest_of};
ghost use Rattle.idriss_theory.specs.Tables.{takes_table3};
ghost use Rattle.probes.specs.Probe.{is_taken, probed_ln, probed_root, told_ln, told, probed_idriss};
ghost use Rattle.probes.specs.Probe.{probed_idriss_sigma, probed_boore_atkinson, probed_boore_atkinson_sigma};
ghost use Rattle.probes.specs.Probe.{probed_nonlinear, told_place, probed_place};

use interval_theory::Ends;
use scenario_theory::{Place, ProjectionDistance, RuptureDistance, Scenario};

// The ends of a logarithm. Where there are none, low is 1 and high 0.
#[repr(C)]
#[derive(Clone, Copy)]
pub struct Probed {
    pub low: u64,
    pub high: u64,
}

// The ends of an answer. Where there are none, low is 1 and high 0. The two structs differ in a type alone, and
// stay two for the C interface, which has no generic struct.
#[repr(C)]
#[derive(Clone, Copy)]
pub struct ProbedEnds {
    pub low: i64,
    pub high: i64,
}

// The place of a period: 0 for row k, 1 for between the rows k and k + 1, 2 for neither. A kind and a number
// for the C interface, to which no Option passes.
#[repr(C)]
#[derive(Clone, Copy)]
pub struct ProbedPlace {
    pub kind: u8,
    pub row: usize,
}

const NO_LN: Probed = Probed { low: 1, high: 0 };

const NO_ENDS: ProbedEnds = ProbedEnds { low: 1, high: 0 };

impl From<Ends<u64>> for Probed {
    ghost from_gives = { λ e p. p ≡ told_ln e };

    fn from(e: Ends<u64>) -> Probed {
        Probed {
            low: e.low,
            high: e.high,
        }
    }
}

impl From<Ends<i64>> for ProbedEnds {
    ghost from_gives = { λ e p. p ≡ told e };

    fn from(e: Ends<i64>) -> ProbedEnds {
        ProbedEnds {
            low: e.low,
            high: e.high,
        }
    }
}

impl From<Option<Place>> for ProbedPlace {
    ghost from_gives = { λ l p. p ≡ told_place l };

    fn from(l: Option<Place>) -> ProbedPlace {
        match l {
            Some(Place::Row(row)) => ProbedPlace { kind: 0, row },
            Some(Place::Between(row)) => ProbedPlace { kind: 1, row },
            None => ProbedPlace { kind: 2, row: 0 },
        }
    }
}

#[unsafe(no_mangle)]
pub extern "C" fn probe_ln(a: u64, b: u64) -> Probed
    ensures { result ≡ probed_ln a b }
{
    if b == 0 || a < b || 536_870_912 <= a {
        return NO_LN;
    }
    logarithm::ln(a, b).into()
}

// The root of x is from r/131072 to (r + 1)/131072. Where x is too large, r is 2^64 − 1.
#[unsafe(no_mangle)]
pub extern "C" fn probe_root(x: u64) -> u64
    ensures { result ≡ probed_root x }
{
    if 536_870_912 <= x {
        return u64::MAX;
    }
    logarithm::root(x)
}

// Where a period stands in the tables of Idriss for model 1, of Boore-Atkinson for any other.
#[unsafe(no_mangle)]
pub extern "C" fn probe_place(model: u8, period: u16) -> ProbedPlace
    ensures { result ≡ probed_place model period }
{
    let place = if model == 1 {
        scenario_rows::idriss_place(period)
    } else {
        scenario_rows::boore_atkinson_place(period)
    };
    place.into()
}

// How many bytes the rest of the record at the front of s has.
#[unsafe(no_mangle)]
pub extern "C" fn probe_rest_length(s: &[u8]) -> usize
    ensures { result ≡ length (rest_of s.now) }
{
    record_reading::rest(s).len()
}

// The byte at a place of the rest, 0 past its end.
#[unsafe(no_mangle)]
pub extern "C" fn probe_rest_byte(s: &[u8], i: usize) -> u8
    ensures { result ≡ get_or (rest_of s.now) i 0 }
{
    record_reading::rest(s).get(i).copied().unwrap_or(0)
}

// Whether k is a row and s is accepted.
fn taken(k: usize, s: Scenario) -> bool
    ensures { result ≡ is_taken k s }
{
    k < 22 && scenario::refusal(s) == 0
}

// Accepted but for its model and its distances.
const PLAIN: Scenario = Scenario {
    model: 0,
    magnitude: 700,
    rupture: None,
    velocity: 7_600,
    mechanism: 0,
    period: 0,
    projection: None,
};

// Which of Idriss's tables a magnitude takes: 1 for Table 3, 0 for Table 2.
#[unsafe(no_mangle)]
pub extern "C" fn probe_takes_table_3(magnitude: u16) -> bool
    ensures { result ≡ takes_table3 magnitude }
{
    idriss_tables::takes_table_3(magnitude)
}

// The median of Idriss by row k of a table, 3 or any other number for Table 2.
#[unsafe(no_mangle)]
pub extern "C" fn probe_idriss(
    table: u8,
    k: usize,
    magnitude: u16,
    rupture_distance: u16,
    velocity: u16,
    mechanism: u8,
) -> ProbedEnds
    ensures { result ≡ probed_idriss table k magnitude rupture_distance velocity mechanism }
{
    let distance = RuptureDistance(rupture_distance);
    let s = Scenario {
        model: 1,
        magnitude,
        rupture: Some(distance),
        velocity,
        mechanism,
        ..PLAIN
    };
    if !taken(k, s) {
        return NO_ENDS;
    }
    idriss::median(table == 3, k, s, distance).into()
}

// Sigma of Idriss at an accepted period.
#[unsafe(no_mangle)]
pub extern "C" fn probe_idriss_sigma(period: u16, magnitude: u16) -> ProbedEnds
    ensures { result ≡ probed_idriss_sigma period magnitude }
{
    let s = Scenario {
        model: 1,
        magnitude,
        rupture: Some(RuptureDistance(0)),
        period,
        ..PLAIN
    };
    if !taken(0, s) {
        return NO_ENDS;
    }
    idriss_sigma::sigma(period, magnitude).into()
}

// The median of Boore-Atkinson by row k.
#[unsafe(no_mangle)]
pub extern "C" fn probe_boore_atkinson(
    k: usize,
    magnitude: u16,
    projection_distance: u16,
    velocity: u16,
    mechanism: u8,
) -> ProbedEnds
    ensures { result ≡ probed_boore_atkinson k magnitude projection_distance velocity mechanism }
{
    let distance = ProjectionDistance(projection_distance);
    let s = Scenario {
        model: 2,
        magnitude,
        velocity,
        mechanism,
        projection: Some(distance),
        ..PLAIN
    };
    if !taken(k, s) {
        return NO_ENDS;
    }
    boore_atkinson::median(k, s, distance).into()
}

// Sigma of Boore-Atkinson by row k.
#[unsafe(no_mangle)]
pub extern "C" fn probe_boore_atkinson_sigma(k: usize, mechanism: u8) -> ProbedEnds
    ensures { result ≡ probed_boore_atkinson_sigma k mechanism }
{
    let s = Scenario {
        model: 2,
        mechanism,
        projection: Some(ProjectionDistance(0)),
        ..PLAIN
    };
    if !taken(k, s) {
        return NO_ENDS;
    }
    boore_atkinson_sigma::sigma(k, mechanism).into()
}

// The nonlinear part of Boore-Atkinson by row k, where −p lies from low to high.
#[unsafe(no_mangle)]
pub extern "C" fn probe_nonlinear(k: usize, velocity: u16, low: u64, high: u64) -> ProbedEnds
    ensures { result ≡ probed_nonlinear k velocity low high }
{
    let s = Scenario {
        model: 2,
        velocity,
        projection: Some(ProjectionDistance(0)),
        ..PLAIN
    };
    if high < low || !taken(k, s) {
        return NO_ENDS;
    }
    boore_atkinson::nonlinear(k, velocity, Ends { low, high }).into()
}
