// The line of an answer, as bytes.
#![tactic(auto, using(report_theory::proofs::LineLaws::lines))]

ghost use Rattle.std.specs.Prelude.{◌≡◌, Ok};
ghost use Rattle.report_theory.specs.Lines.{line_of, refused_line_of, numbered_line_of};
ghost use Rattle.report_theory.specs.Lines.{length_on, bytes_after};

use arrayvec::ArrayVec;
use decimal::put_whole;
use engine_theory::Enclosure;
use lines::{push_line, push_refused};
use report_theory::Numbered;

// The line of four ends.
fn enclosed_line(position: u64, e: Enclosure<i64>, out: &mut [u8]) -> usize
    ensures value { result ≡ length_on (line_of position (Ok e)) out.old }
    ensures out_after { out.new ≡ bytes_after (line_of position (Ok e)) out.old }
{
    let mut line: ArrayVec<u8, 110> = ArrayVec::new();
    push_line(&mut line, position, Ok(e));
    put_whole(line.as_slice(), out)
}

// Puts the line of a refusal with any number, as `line` does.
pub fn refused_line(position: u64, number: u8, out: &mut [u8]) -> usize
    ensures value { result ≡ length_on (refused_line_of position number) out.old }
    ensures out_after { out.new ≡ bytes_after (refused_line_of position number) out.old }
{
    let mut refused: ArrayVec<u8, 110> = ArrayVec::new();
    push_refused(&mut refused, position, number);
    put_whole(refused.as_slice(), out)
}

// Puts the line of an answer, without its line end, at the front of out, and answers its length; where it does not fit,
// the length is 0, as length_on has it, and out is not touched. A refusal is a `Refusal`, or any number.
#[tactic(auto, unfolding(report_theory::specs::Lines::numbered_line_of))]
pub fn line<R: Numbered>(position: u64, a: Result<Enclosure<i64>, R>, out: &mut [u8]) -> usize
    ensures value { result ≡ length_on (numbered_line_of R.number position a) out.old }
    ensures out_after { out.new ≡ bytes_after (numbered_line_of R.number position a) out.old }
{
    match a {
        Ok(e) => enclosed_line(position, e, out),
        Err(refusal) => refused_line(position, refusal.numbered(), out),
    }
}
