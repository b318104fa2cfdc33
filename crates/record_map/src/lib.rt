// The map byte of a record: its checks, and the length of the record that it begins; and the numbers of absent fields,
// which reading and writing share.
#![tactic(auto)]

ghost use Rattle.std.specs.Prelude.{◌≡◌, cond, ◌+◌, ◌≤◌, ◌<◌};
ghost use Rattle.record_theory.specs.Outcome.{length_by, map_refusal};
ghost use Rattle.scenario_theory.specs.Numbers.{check_with};

use scenario_theory::Refusal;

// The numbers of fields that are absent.
pub const ABSENT_VELOCITY: u16 = 7_600;

pub const ABSENT_MECHANISM: u8 = 9;

pub const ABSENT_PERIOD: u16 = 0;

// n, and k more where b holds. It stays a function of its own: the edits one_more and k_for_n speak of it.
pub fn more_if(n: usize, b: bool, k: usize) -> usize
    requires { n + k < 256 }
    ensures { (result ≡ n + cond b k 0) × (result ≤ n + k) }
{
    if b { n + k } else { n }
}

// The checks of the map byte.
#[tactic(auto, using(record_theory::proofs::MapLaws::map_checked))]
pub fn map_check(m: u8) -> Result<(), Refusal>
    ensures { result ≡ check_with (map_refusal m) }
{
    if 128 <= m {
        return Err(Refusal::ReservedBit);
    }
    if m % 4 != 3 {
        return Err(Refusal::MissingField);
    }
    if m == 0 {
        return Err(Refusal::EmptyMap);
    }
    Ok(())
}

// The length of the record whose map byte is m.
#[tactic(auto, using(record_theory::proofs::FieldLaws::length_is))]
pub fn record_length(m: u8) -> usize
    requires { map_refusal m ≡ 0 }
    ensures { result ≡ length_by m }
{
    let velocity_at = more_if(4, m / 4 % 2 == 1, 2);
    let mechanism_at = more_if(velocity_at, m / 8 % 2 == 1, 2);
    let period_at = more_if(mechanism_at, m / 16 % 2 == 1, 1);
    let projection_at = more_if(period_at, m / 32 % 2 == 1, 2);
    more_if(projection_at, m / 64 % 2 == 1, 2)
}
