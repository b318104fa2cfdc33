// The decimal digits of a number, as bytes: how many they are, put after a line's other bytes, and put where there may
// be no room; and the same of a whole line.
// No Display: to_string and format! need a heap, and the clauses say each byte that is put.
#![tactic(auto, using(report_theory::proofs::TextLaws::digit_steps))]

ghost use Rattle.std.specs.Prelude.{◌≡◌, ◌+◌, ◌≤◌, [], ◌++◌, length};
ghost use Rattle.arrayvec.specs.ArrayVec.{array_vec_len};
ghost use Rattle.report_theory.specs.Text.{decimal};
ghost use Rattle.report_theory.specs.Lines.{length_on, bytes_after};
ghost use Rattle.report_theory.specs.Steps.{Counted};

use arrayvec::ArrayVec;

// How many decimal digits n has, and so how many bytes `number` needs.
pub fn decimal_length(n: u64) -> usize
    ensures { Counted (decimal n) 20 result }
{
    if n < 10 {
        return 1;
    }
    decimal_length(n / 10) + 1
}

// Puts the digits of n where there are none yet. They are lent: handed from call to call, all would be copied for each.
fn push_digits(digits: &mut ArrayVec<u8, 20>, n: u64)
    requires { digits.old.items ≡ [] }
    ensures { digits.new.items ≡ decimal n }
{
    if n < 10 {
        digits.push(b'0' + n as u8);
        return;
    }
    push_digits(digits, n / 10);
    digits.push(b'0' + (n % 10) as u8);
}

// The digits of n.
pub fn digits_of(n: u64) -> ArrayVec<u8, 20>
    ensures { result.items ≡ decimal n }
{
    let mut digits = ArrayVec::new();
    push_digits(&mut digits, n);
    digits
}

// Puts n after what a line has.
pub fn push_decimal<const N: usize>(line: &mut ArrayVec<u8, N>, n: u64)
    requires { array_vec_len line.old + length (decimal n) ≤ N }
    ensures { line.new.items ≡ line.old.items ++ decimal n }
{
    // There is room.
    let _ = line.try_extend_from_slice(digits_of(n).as_slice());
}

// Puts a line at the front of out, and answers its length; where it does not fit, that is 0 and out is not touched. (0
// and no Option: length_on, in the clause, is 0 there, and a function that could not fail still cannot.)
#[tactic(auto, unfolding(report_theory::specs::Lines::length_on, report_theory::specs::Lines::bytes_after))]
pub fn put_whole(line: &[u8], out: &mut [u8]) -> usize
    ensures value { result ≡ length_on line.now out.old }
    ensures out_after { out.new ≡ bytes_after line.now out.old }
{
    let n = line.len();
    if out.len() < n {
        return 0;
    }
    out[..n].copy_from_slice(line);
    n
}

// Puts the digits of n at the front of out, and answers how many they are; where they do not fit, that is 0 and out is
// not touched.
pub fn number(n: u64, out: &mut [u8]) -> usize
    ensures value { result ≡ length_on (decimal n) out.old }
    ensures out_after { out.new ≡ bytes_after (decimal n) out.old }
{
    put_whole(digits_of(n).as_slice(), out)
}
