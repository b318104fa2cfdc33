// The last line, as bytes.
#![tactic(auto, using(report_theory::proofs::LineLaws::lines), unfolding(report_theory::specs::Lines::last_line_of))]

ghost use Rattle.std.specs.Prelude.{◌≡◌};
ghost use Rattle.report_theory.specs.Lines.{last_line_of, length_on, bytes_after};

use arrayvec::ArrayVec;
use decimal::put_whole;
use lines::push_last_line;

// Puts the last line, without its line end, at the front of out, and answers its length; where it does not fit, the
// length is 0 and out is not touched.
pub fn last_line(count: u64, out: &mut [u8]) -> usize
    ensures value { result ≡ length_on (last_line_of count) out.old }
    ensures out_after { out.new ≡ bytes_after (last_line_of count) out.old }
{
    let mut line: ArrayVec<u8, 24> = ArrayVec::new();
    push_last_line(&mut line, count);
    put_whole(line.as_slice(), out)
}
