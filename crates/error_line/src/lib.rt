// The line that the program writes to standard error where reading or writing fails, as bytes.
#![tactic(auto, using(report_theory::proofs::LineLaws::lines))]

ghost use Rattle.std.specs.Prelude.{◌≡◌, ◌++◌, ◌+◌, ◌≤◌, length, take};
ghost use Rattle.arrayvec.specs.ArrayVec.{array_vec_len};
ghost use Rattle.report_theory.specs.Text.{decimal, places};
ghost use Rattle.enclosures_theory.specs.Sizes.{error_most};
ghost use Rattle.enclosures_theory.specs.Output.{ended};
ghost use Rattle.enclosures_theory.specs.Transfers.{input_failed, output_failed, error_of};

use arrayvec::ArrayVec;
use decimal::{push_decimal, put_whole};
use enclosures_theory::{Failed, Transfer};

// Room for the line and its end, `error_most`.
pub const ERROR_MOST: usize = 92;

// Puts a text after what a line has, one by one: the edit first_byte_again puts the first byte in all places.
pub fn push_text<const N: usize>(line: &mut ArrayVec<u8, N>, text: &[u8])
    requires { array_vec_len line.old + length text.now ≤ N }
    ensures { line.new.items ≡ line.old.items ++ text.now }
{
    for b in text {
        line.push(*b);
    }
}

// The same of a text and a number.
fn push_counted(line: &mut ArrayVec<u8, ERROR_MOST>, text: &[u8], n: usize)
    requires { array_vec_len line.old + length text.now + places ≤ ERROR_MOST }
    ensures { line.new.items ≡ line.old.items ++ (text.now ++ decimal n) }
{
    push_text(line, text);
    push_decimal(line, n as u64);
}

fn input_failed(n: usize) -> ArrayVec<u8, ERROR_MOST>
    ensures { result.items ≡ ended (input_failed n) }
{
    let mut line = ArrayVec::new();
    push_counted(&mut line, b"enclosures: standard input failed after ", n);
    push_text(&mut line, b" bytes\n");
    line
}

fn output_failed(n: usize, all: usize) -> ArrayVec<u8, ERROR_MOST>
    ensures { result.items ≡ ended (output_failed n all) }
{
    let mut line = ArrayVec::new();
    push_counted(&mut line, b"enclosures: standard output failed after ", n);
    push_counted(&mut line, b" of ", all);
    push_text(&mut line, b" bytes\n");
    line
}

// Puts what goes to standard error after a read and a write of so many bytes, and answers how many bytes it has.
pub fn put_error(got: Transfer, put: Transfer, all: usize, out: &mut [u8]) -> usize
    requires { error_most ≤ length out.old }
    ensures out_after { take result out.new ≡ error_of got put all }
    ensures upper_bound { result ≤ length out.new }
{
    let line = match (got, put) {
        (Err(Failed(n)), _) => input_failed(n),
        (Ok(_), Err(Failed(n))) => output_failed(n, all),
        (Ok(_), Ok(_)) => ArrayVec::new(),
    };
    put_whole(line.as_slice(), out)
}
