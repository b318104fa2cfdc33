// The line of an answer, and the last line, as bytes: definitions and laws, and what has the number of a refusal. There
// is no code but that of its types.
#![tactic(auto)]

ghost use Rattle.std.specs.Prelude.{◌≡◌, ℕ};
ghost use Rattle.scenario_theory.specs.Numbers.{refusal_number};

use scenario_theory::Refusal;

// What a line has after R: a reason by its number, or any number.
pub trait Numbered {
    ghost number: { Self → ℕ };

    fn numbered(self) -> u8
        ensures { result ≡ number self };
}

impl Numbered for Refusal {
    ghost number = { refusal_number };

    fn numbered(self) -> u8 {
        self.into()
    }
}

impl Numbered for u8 {
    ghost number = { λ k. k };

    fn numbered(self) -> u8 {
        // Any number, those of no `Refusal` too.
        self
    }
}
