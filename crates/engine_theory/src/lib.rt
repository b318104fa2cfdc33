// Answers: their types, what the models give, what is promised, what is computed, and laws. There is no code but that
// of its types.
#![tactic(auto)]

ghost use Rattle.std.specs.Prelude.{◌≡◌};
ghost use Rattle.engine_theory.specs.Flat.{told};

use interval_theory::Ends;
use scenario_theory::Refusal;

// The ends of the median and those of sigma.
#[derive(Clone, Copy)]
pub struct Enclosure<T> {
    pub median: Ends<T>,
    pub sigma: Ends<T>,
}

// What answering gives: four ends, natural logarithms in units of 10^-9, or why the scenario is turned away.
pub type Answer = Result<Enclosure<i64>, Refusal>;

// An answer to the record at the front of some bytes, with the record's length.
pub type NextAnswer = Result<(Enclosure<i64>, usize), Refusal>;

// What answering in doubles gives: each of the four equals its whole number.
pub type DoublesAnswer = Result<Enclosure<f64>, Refusal>;

// The struct below is the C interface, to which no Result passes: a number beside the ends.

// An answer: number 0 and the low and high ends of the median and of sigma, natural logarithms in units of 10^-9; or
// the number of the refusal, and zeros for the ends.
#[repr(C)]
#[derive(Clone, Copy)]
pub struct FlatAnswer {
    pub number: u8,
    pub median_low: i64,
    pub median_high: i64,
    pub sigma_low: i64,
    pub sigma_high: i64,
}

impl From<Answer> for FlatAnswer {
    ghost from_gives = { λ a r. r ≡ told a };

    fn from(a: Answer) -> FlatAnswer {
        match a {
            Ok(e) => FlatAnswer {
                number: 0,
                median_low: e.median.low,
                median_high: e.median.high,
                sigma_low: e.sigma.low,
                sigma_high: e.sigma.high,
            },
            Err(refusal) => FlatAnswer {
                number: refusal.into(),
                median_low: 0,
                median_high: 0,
                sigma_low: 0,
                sigma_high: 0,
            },
        }
    }
}
