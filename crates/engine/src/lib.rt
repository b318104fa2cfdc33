// Answers a scenario, from its fields or from its record, with ends of median and sigma that enclose the exact values,
// in whole units of 10^-9 or in doubles, or with the reason why it is refused.
#![tactic(auto)]

ghost use Rattle.std.specs.Prelude.{◌≡◌, ◌+◌};
ghost use Rattle.scenario_theory.specs.declared.Place.TheVariants as P;
ghost use Rattle.scenario_theory.specs.Refusal.{idriss, boore_atkinson, refusal_of};
ghost use Rattle.scenario_theory.specs.Rows.{idriss_row, boore_atkinson_row, first_in, last_in};
ghost use Rattle.scenario_theory.specs.Accepted.{Placed, PlacedOn};
ghost use Rattle.record_theory.specs.Outcome.{scenario_in, read_refusal};
ghost use Rattle.idriss_theory.specs.Tables.{table_for};
ghost use Rattle.engine_theory.specs.Promise.{AnswerPromise, NextPromise, DoublesPromise};
ghost use Rattle.engine_theory.specs.Steps.{enclosure_on, idriss_rows_of, boore_atkinson_rows_of};
ghost use Rattle.engine_theory.specs.Evaluation.{idriss_median_ends, idriss_enclosure_of, boore_atkinson_enclosure_of};
ghost use Rattle.engine_theory.specs.Evaluation.{answer_of, record_answer_of, next_of, in_doubles};

use doubles::as_doubles;
pub use engine_theory::{Answer, DoublesAnswer, Enclosure, NextAnswer};
use interpolation::interpolated;
use interpolation_theory::TwoRows;
use interval::ends;
use interval_theory::Ends;
use row_neighbours::{boore_atkinson_neighbours, idriss_neighbours};
use scenario_theory::{Basis, Place, ProjectionDistance, RuptureDistance, Scenario};

// Placed stands in each contract: it speaks of the scenario too, which a Place or a Basis does not hold.

// The median of Idriss at a place, by those of its rows.
fn idriss_median(s: Scenario, distance: RuptureDistance, place: Place, rows: TwoRows) -> Ends<i64>
    requires placed { Placed idriss idriss_row s.magnitude distance.0 s.velocity s.mechanism s.period place }
    requires rows_value { rows ≡ idriss_rows_of s.magnitude distance.0 s.velocity s.mechanism (first_in place)
        (last_in place) }
    ensures { result ≡ idriss_median_ends (table_for s.magnitude) s.magnitude distance.0 s.velocity s.mechanism
        s.period }
{
    match place {
        Place::Row(_) => ends(rows.upper),
        Place::Between(k) => {
            let step = period_step::step(idriss_neighbours(k), s.period);
            interpolated(rows.lower, rows.upper, step.part, step.whole)
        }
    }
}

fn by_idriss(s: Scenario, distance: RuptureDistance, place: Place) -> Enclosure<i64>
    requires { Placed idriss idriss_row s.magnitude distance.0 s.velocity s.mechanism s.period place }
    ensures { result ≡ idriss_enclosure_of s.magnitude distance.0 s.velocity s.mechanism s.period }
{
    let rows = idriss::median_rows(
        idriss_tables::takes_table_3(s.magnitude),
        place.first(),
        place.last(),
        s,
        distance,
    );
    Enclosure {
        median: idriss_median(s, distance, place, rows),
        sigma: idriss_sigma::sigma(s.period, s.magnitude),
    }
}

// By Boore and Atkinson between row k and the next, with the medians by these.
fn between_boore_atkinson(
    s: Scenario,
    distance: ProjectionDistance,
    k: usize,
    rows: TwoRows,
) -> Enclosure<i64>
    requires placed { Placed boore_atkinson boore_atkinson_row s.magnitude distance.0 s.velocity s.mechanism s.period
        (P.Between k) }
    requires rows_value { rows ≡ boore_atkinson_rows_of s.magnitude distance.0 s.velocity s.mechanism k (k + 1) }
    ensures { result ≡ boore_atkinson_enclosure_of s.magnitude distance.0 s.velocity s.mechanism s.period }
{
    let step = period_step::step(boore_atkinson_neighbours(k), s.period);
    let sigmas = boore_atkinson_sigma::sigma_rows(k, s.mechanism);
    Enclosure {
        median: interpolated(rows.lower, rows.upper, step.part, step.whole),
        sigma: interpolated(sigmas.lower, sigmas.upper, step.part, step.whole),
    }
}

// By Boore and Atkinson at row k, with the median by it.
fn at_boore_atkinson_row(
    s: Scenario,
    distance: ProjectionDistance,
    k: usize,
    rows: TwoRows,
) -> Enclosure<i64>
    requires placed { Placed boore_atkinson boore_atkinson_row s.magnitude distance.0 s.velocity s.mechanism s.period
        (P.Row k) }
    requires rows_value { rows ≡ boore_atkinson_rows_of s.magnitude distance.0 s.velocity s.mechanism k k }
    ensures { result ≡ boore_atkinson_enclosure_of s.magnitude distance.0 s.velocity s.mechanism s.period }
{
    Enclosure {
        median: ends(rows.upper),
        sigma: boore_atkinson_sigma::sigma(k, s.mechanism),
    }
}

fn by_boore_atkinson(s: Scenario, distance: ProjectionDistance, place: Place) -> Enclosure<i64>
    requires { Placed boore_atkinson boore_atkinson_row s.magnitude distance.0 s.velocity s.mechanism s.period place }
    ensures { result ≡ boore_atkinson_enclosure_of s.magnitude distance.0 s.velocity s.mechanism s.period }
{
    let rows = boore_atkinson::median_rows(place.first(), place.last(), s, distance);
    match place {
        Place::Row(k) => at_boore_atkinson_row(s, distance, k, rows),
        Place::Between(k) => between_boore_atkinson(s, distance, k, rows),
    }
}

// By what the checks have found an answer to rest on: the model and the distance that it reads, and the place of the
// period.
fn on_basis(s: Scenario, basis: Basis) -> Enclosure<i64>
    requires { PlacedOn s.magnitude s.velocity s.mechanism s.period basis }
    ensures { result ≡ enclosure_on s.magnitude s.velocity s.mechanism s.period basis }
{
    match basis {
        Basis::Idriss(distance, place) => by_idriss(s, distance, place),
        Basis::BooreAtkinson(distance, place) => by_boore_atkinson(s, distance, place),
    }
}

// Answers a scenario of any fields.
pub fn answer_fields(s: Scenario) -> Answer
    ensures value { result ≡ answer_of s }
    ensures answer_promise { AnswerPromise (refusal_of s) s result }
{
    let basis = scenario::check(s)?;
    Ok(on_basis(s, basis))
}

// Answers the record at the front of any bytes, and says how long it is.
pub fn answer_next(bytes: &[u8]) -> NextAnswer
    ensures value { result ≡ next_of bytes.now }
    ensures next_promise { NextPromise bytes.now result }
{
    let (s, length, basis) = record_reading::read_with_basis(bytes)?;
    Ok((on_basis(s, basis), length))
}

// Answers the record at the front of any bytes.
pub fn answer_record(bytes: &[u8]) -> Answer
    ensures value { result ≡ record_answer_of bytes.now }
    ensures answer_promise { AnswerPromise (read_refusal bytes.now) (scenario_in bytes.now) result }
{
    let (e, _) = answer_next(bytes)?;
    Ok(e)
}

// Answers a scenario of any fields, in doubles that equal the whole units.
pub fn answer_fields_in_doubles(s: Scenario) -> DoublesAnswer
    ensures value { result ≡ in_doubles (answer_of s) }
    ensures doubles_promise { DoublesPromise (refusal_of s) s (answer_of s) result }
{
    let e = answer_fields(s)?;
    Ok(as_doubles(e))
}

// Answers the record at the front of any bytes, in doubles that equal the whole units.
pub fn answer_record_in_doubles(bytes: &[u8]) -> DoublesAnswer
    ensures value { result ≡ in_doubles (record_answer_of bytes.now) }
    ensures doubles_promise { DoublesPromise (read_refusal bytes.now) (scenario_in bytes.now)
        (record_answer_of bytes.now) result }
{
    let e = answer_record(bytes)?;
    Ok(as_doubles(e))
}
