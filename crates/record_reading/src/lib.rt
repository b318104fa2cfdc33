// Reads the record of a scenario.
#![tactic(auto)]

ghost use Rattle.std.specs.Prelude.{◌≡◌, ◌+◌};
ghost use Rattle.record_theory.specs.Layout.{Bytes};
ghost use Rattle.record_theory.specs.Outcome.{read_of, rest_at, rest_of, ReadPromise};
ghost use Rattle.record_theory.specs.Steps.{based_reading_of, reading_in};

use record_fields::{absent_written, fields, front_check};
use record_map::record_length;
pub use record_theory::{BasedReading, Reading};
use scenario_theory::Refusal;

// Reads the record at the front of s, with what an answer rests on, so that nobody has to look it up again.
pub fn read_with_basis(s: &[u8]) -> BasedReading
    ensures value { result ≡ based_reading_of s.now }
    ensures read_promise { ReadPromise s.now (reading_in result) }
    ensures bytes { Bytes s.now }
{
    front_check(s)?;
    let m = s[0];
    let x = fields(s);
    if absent_written(m, x) {
        return Err(Refusal::DefaultWritten);
    }
    let basis = scenario::check(x)?;
    Ok((x, record_length(m), basis))
}

// Reads the record at the front of s. The laws by which reading and writing undo each other ask that s is bytes.
pub fn read(s: &[u8]) -> Reading
    ensures value { result ≡ read_of s.now }
    ensures read_promise { ReadPromise s.now result }
    ensures bytes { Bytes s.now }
{
    let (x, n, _) = read_with_basis(s)?;
    Ok((x, n))
}

// The part of s after the record that is read at its front, none of a refused read: its bytes, and that it lies in s,
// so many bytes after its start.
pub fn rest(s: &[u8]) -> &[u8]
    ensures result_value { result.now ≡ rest_of s.now }
    ensures ref_ptr_value { result.ref_ptr ≡ (s.entry.ref_ptr.0, rest_at s.now + s.entry.ref_ptr.1) }
{
    match read(s) {
        Ok((_, n)) => &s[n..],
        Err(_) => &s[..0],
    }
}
