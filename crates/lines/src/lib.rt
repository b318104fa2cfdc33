// The lines of a page, each put after what the page has, where there is room.
#![tactic(auto, using(report_theory::proofs::LineLaws::lines))]

ghost use Rattle.std.specs.Prelude.{◌≡◌, ◌+◌, ◌≤◌, ◌∷◌, ◌++◌};
ghost use Rattle.arrayvec.specs.ArrayVec.{array_vec_len};
ghost use Rattle.report_theory.specs.Text.{signed_decimal};
ghost use Rattle.report_theory.specs.Lines.{line_of, refused_line_of, last_line_of};
ghost use Rattle.report_theory.specs.Steps.{ends_bytes};

use arrayvec::ArrayVec;
use decimal::push_decimal;
use engine_theory::Answer;
use interval_theory::Ends;

// Puts a space and a number after what a line has.
#[tactic(auto, using(report_theory::proofs::LineLaws::lines), unfolding(report_theory::specs::Text::signed_decimal))]
fn push_end<const N: usize>(line: &mut ArrayVec<u8, N>, z: i64)
    requires { array_vec_len line.old + 22 ≤ N }
    ensures { line.new.items ≡ line.old.items ++ (32 ∷ signed_decimal z) }
{
    line.push(b' ');
    if z < 0 {
        line.push(b'-');
    }
    push_decimal(line, z.unsigned_abs());
}

#[tactic(auto, using(report_theory::proofs::LineLaws::lines), unfolding(report_theory::specs::Text::spaced))]
fn push_ends<const N: usize>(line: &mut ArrayVec<u8, N>, e: Ends<i64>)
    requires { array_vec_len line.old + 44 ≤ N }
    ensures { line.new.items ≡ line.old.items ++ ends_bytes e }
{
    push_end(line, e.low);
    push_end(line, e.high);
}

// Puts the line of a refusal with any number, without its line end, after what a page has.
#[tactic(auto, using(report_theory::proofs::LineLaws::lines), unfolding(report_theory::specs::Text::spaced))]
pub fn push_refused<const N: usize>(page: &mut ArrayVec<u8, N>, position: u64, number: u8)
    requires { array_vec_len page.old + 110 ≤ N }
    ensures { page.new.items ≡ page.old.items ++ refused_line_of position number }
{
    push_decimal(page, position);
    page.push(b' ');
    page.push(b'R');
    page.push(b' ');
    push_decimal(page, number as u64);
}

// Puts the line of an answer, without its line end, after what a page has.
pub fn push_line<const N: usize>(page: &mut ArrayVec<u8, N>, position: u64, a: Answer)
    requires { array_vec_len page.old + 110 ≤ N }
    ensures { page.new.items ≡ page.old.items ++ line_of position a }
{
    match a {
        Ok(e) => {
            push_decimal(page, position);
            page.push(b' ');
            page.push(b'E');
            push_ends(page, e.median);
            push_ends(page, e.sigma);
        }
        Err(refusal) => push_refused(page, position, refusal.into()),
    }
}

// Puts the last line, without its line end, after what a page has.
#[tactic(auto, using(report_theory::proofs::LineLaws::lines), unfolding(report_theory::specs::Lines::last_line_of))]
pub fn push_last_line<const N: usize>(page: &mut ArrayVec<u8, N>, count: u64)
    requires { array_vec_len page.old + 24 ≤ N }
    ensures { page.new.items ≡ page.old.items ++ last_line_of count }
{
    // There is room.
    let _ = page.try_extend_from_slice(b"end ");
    push_decimal(page, count);
}
