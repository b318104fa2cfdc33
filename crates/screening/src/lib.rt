// Names and marks the places of a sheet of answers: the greatest end among the accepted ones, and the marks.
#![tactic(auto)]

ghost use Rattle.std.specs.Prelude.{◌≡◌, ◌≤◌, length, min};
ghost use Rattle.sheet_theory.specs.Promise.{sheet_most};
ghost use Rattle.governing_theory.specs.Evaluation.{leads, with_place, greatest_of, mark_of, marks_of, no_screening};
ghost use Rattle.governing_theory.specs.Evaluation.{screening_of};

use governing_theory::{FlatScreening, Greatest};
use scenario_theory::Refusal;
use sheet_theory::FlatSheet;

// Whether a place with such a number and such an end takes the lead. A refused one is passed over by its number.
fn leads(best: Option<Greatest>, number: u8, end: i64) -> bool
    ensures { result ≡ leads best number end }
{
    number == 0 && best.is_none_or(|b| b.end < end)
}

// The greatest end among the accepted of some places, with its position.
fn greatest(numbers: &[u8], ends: &[i64]) -> Option<Greatest>
    ensures { result ≡ greatest_of numbers.now ends.now (min (length numbers.now) (length ends.now)) }
{
    let mut best = None;
    for (i, (number, end)) in numbers.iter().zip(ends).enumerate() {
        if leads(best, *number, *end) {
            best = Some(Greatest {
                position: i + 1,
                end: *end,
            });
        }
    }
    best
}

// The mark of a place, where low is the greatest low end.
fn mark(low: i64, number: u8, high: i64) -> u8
    ensures { result ≡ mark_of low number high }
{
    u8::from(number == 0 && low <= high)
}

// The marks of some places, then zeros.
fn marks(low: i64, numbers: &[u8], highs: &[i64]) -> [u8; 64]
    requires { length numbers.now ≤ sheet_most }
    ensures { result ≡ marks_of low numbers.now highs.now (min (length numbers.now) (length highs.now)) }
{
    let mut marks = [0u8; 64];
    for (i, (number, high)) in numbers.iter().zip(highs).enumerate() {
        marks[i] = mark(low, *number, *high);
    }
    marks
}

// A refusal, by the number that FlatSheet has.
fn none(number: u8) -> FlatScreening
    ensures { result ≡ no_screening number }
{
    FlatScreening {
        number,
        position: 0,
        marks: [0u8; 64],
    }
}

// Names and marks the places of a sheet. With 14, and where no place is accepted, nothing is named or marked.
pub fn screen(sheet: FlatSheet) -> FlatScreening
    requires { sheet.count ≤ sheet_most }
    ensures { result ≡ screening_of sheet }
{
    if sheet.number != 0 {
        return none(sheet.number);
    }
    let numbers = &sheet.numbers[..sheet.count];
    let highs = &sheet.median_high[..sheet.count];
    let lows = &sheet.median_low[..sheet.count];
    let (Some(high), Some(low)) = (greatest(numbers, highs), greatest(numbers, lows)) else {
        return none(Refusal::NoneAccepted.into());
    };
    FlatScreening {
        number: 0,
        position: high.position,
        marks: marks(low.end, numbers, highs),
    }
}
