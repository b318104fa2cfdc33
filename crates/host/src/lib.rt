// The engine's functions as C calls them: plain structs, numbers and bytes in, plain structs and numbers out.
#![tactic(auto)]

ghost use Rattle.std.specs.Prelude.{◌≡◌};
ghost use Rattle.scenario_theory.specs.Refusal.{refusal_of};
ghost use Rattle.scenario_theory.specs.Neighbours.{row_periods_of};
ghost use Rattle.record_theory.specs.Outcome.{scenario_in, read_refusal, read_of, write_of, lent_after};
ghost use Rattle.engine_theory.specs.Evaluation.{answer_of, record_answer_of, in_doubles};
ghost use Rattle.engine_theory.specs.Flat.{told};
ghost use Rattle.millionths_theory.specs.Evaluation.{millionths_of};
ghost use Rattle.sheet_theory.specs.Promise.{SheetPromise};
ghost use Rattle.sheet_theory.specs.Evaluation.{sheet_of};
ghost use Rattle.governing_theory.specs.Promise.{GoverningPromise};
ghost use Rattle.governing_theory.specs.Evaluation.{governing_of};
ghost use Rattle.host_theory.specs.Told.{scenario_from, scenarios_from, told_periods, told_doubles, told_bounds};
ghost use Rattle.host_theory.specs.Told.{told_reading, told_writing};
ghost use Rattle.host_theory.specs.Promise.{HostAnswerPromise, HostDoublesPromise, HostBoundsPromise};
ghost use Rattle.host_theory.specs.Promise.{HostReadingPromise, HostWritingPromise, rows_refusal, HostRowsPromise};

use engine_theory::FlatAnswer;
use governing_theory::FlatScreening;
use host_sheet::scenarios_from;
use host_theory::{
    HostBounds, HostDoubles, HostPeriods, HostReading, HostScenario, HostScenarios, HostWriting,
};
use sheet_theory::FlatSheet;

// The number of the first check that turns the scenario away, 0 where none does.
#[unsafe(no_mangle)]
pub extern "C" fn fusnoch_refusal(s: HostScenario) -> u8
    ensures { result ≡ refusal_of (scenario_from s) }
{
    scenario::refusal(s.into())
}

// The rows of the model's tables that the median at the period rests on, by their periods: so that nobody takes a value
// between two rows for that of a row. Sigma of model 2 rests on the same rows, that of model 1 on the period itself.
#[unsafe(no_mangle)]
pub extern "C" fn fusnoch_rows(model: u8, period: u16) -> HostPeriods
    ensures value { result ≡ told_periods (row_periods_of model period) }
    ensures host_rows_promise { HostRowsPromise (rows_refusal model period) period result }
{
    scenario_periods::row_periods(model, period).into()
}

// Answers a scenario of any fields: by Idriss 2014 the median's ends enclose its exact logarithm at most 100 units
// apart, sigma's at most 10; by Boore and Atkinson 2008 at most 2,000 apart, and sigma's are equal. At a period that
// has no row of its own, between two rows, it is twice as much, 200 and 4,000, and sigma's are at most 10 apart by
// Idriss and 20 by Boore-Atkinson. By Idriss sigma's ends are the same at one magnitude for all accepted periods up to
// 50, 0 among them, and for all from 3000 on.
#[unsafe(no_mangle)]
pub extern "C" fn fusnoch_answer_fields(s: HostScenario) -> FlatAnswer
    ensures value { result ≡ told (answer_of (scenario_from s)) }
    ensures host_answer_promise { HostAnswerPromise (refusal_of (scenario_from s)) (scenario_from s) result }
{
    flat::answer_fields(s.into())
}

// Answers the record at the front of any bytes in the same way, or with the number with which reading turns it away.
#[unsafe(no_mangle)]
pub extern "C" fn fusnoch_answer_record(bytes: &[u8]) -> FlatAnswer
    ensures value { result ≡ told (record_answer_of bytes.now) }
    ensures host_answer_promise { HostAnswerPromise (read_refusal bytes.now) (scenario_in bytes.now) result }
{
    flat::answer_record(bytes)
}

// Answers a scenario of any fields in doubles, each equal to its whole number.
#[unsafe(no_mangle)]
pub extern "C" fn fusnoch_answer_fields_in_doubles(s: HostScenario) -> HostDoubles
    ensures value { result ≡ told_doubles (in_doubles (answer_of (scenario_from s))) }
    ensures host_doubles_promise { HostDoublesPromise (refusal_of (scenario_from s)) (scenario_from s)
        (told (answer_of (scenario_from s))) result }
{
    engine::answer_fields_in_doubles(s.into()).into()
}

// Answers the record at the front of any bytes in doubles, each equal to its whole number.
#[unsafe(no_mangle)]
pub extern "C" fn fusnoch_answer_record_in_doubles(bytes: &[u8]) -> HostDoubles
    ensures value { result ≡ told_doubles (in_doubles (record_answer_of bytes.now)) }
    ensures host_doubles_promise { HostDoublesPromise (read_refusal bytes.now) (scenario_in bytes.now)
        (told (record_answer_of bytes.now)) result }
{
    engine::answer_record_in_doubles(bytes).into()
}

// Answers a scenario of any fields with its median in millionths of g: the exact median lies from low to high, and high
// less low is at most 2 plus high/100000 rounded down. It is turned away as fusnoch_answer_fields turns it away.
#[unsafe(no_mangle)]
pub extern "C" fn fusnoch_millionths(s: HostScenario) -> HostBounds
    ensures value { result ≡ told_bounds (millionths_of (scenario_from s)) }
    ensures host_bounds_promise { HostBoundsPromise (refusal_of (scenario_from s)) (scenario_from s) result }
{
    millionths::answer_fields(s.into()).into()
}

// Answers the first count of the scenarios in one go, each as fusnoch_answer_fields answers it; one that is turned away
// does not stop the others. With a count of more than 64 the number is 14, and none is answered.
#[unsafe(no_mangle)]
pub extern "C" fn fusnoch_answer_sheet(count: usize, scenarios: HostScenarios) -> FlatSheet
    ensures value { result ≡ sheet_of count (scenarios_from scenarios) }
    ensures sheet_promise { SheetPromise count (scenarios_from scenarios) result }
{
    let places = scenarios.places;
    sheet::answer_sheet(count, scenarios_from(count, places))
}

// Says which of the first count of the scenarios governs, by the ends with which fusnoch_answer_sheet answers them, and
// which others may. With a count of more than 64 the number is 14, and where none is accepted it is 15.
#[unsafe(no_mangle)]
pub extern "C" fn fusnoch_governing(count: usize, scenarios: HostScenarios) -> FlatScreening
    ensures value { result ≡ governing_of count (scenarios_from scenarios) }
    ensures governing_promise { GoverningPromise count (scenarios_from scenarios) result }
{
    let places = scenarios.places;
    governing::governing(count, scenarios_from(count, places))
}

// Reads the record at the front of any bytes.
#[unsafe(no_mangle)]
pub extern "C" fn fusnoch_read(bytes: &[u8]) -> HostReading
    ensures value { result ≡ told_reading (read_of bytes.now) }
    ensures host_reading_promise { HostReadingPromise bytes.now result }
{
    record_reading::read(bytes).into()
}

// Writes the record of a scenario to the front of the lent bytes and leaves all later bytes; with a refusal it leaves
// all of them.
#[unsafe(no_mangle)]
pub extern "C" fn fusnoch_write(s: HostScenario, out: &mut [u8]) -> HostWriting
    ensures value { result ≡ told_writing (write_of (scenario_from s) out.old) }
    ensures host_writing_promise { HostWritingPromise (scenario_from s) out.old result }
    ensures out_after { out.new ≡ lent_after (scenario_from s) out.old }
{
    record_writing::write(s.into(), out).into()
}
