// The page that the program prints, as bytes.
#![tactic(auto, using(report_theory::proofs::LineLaws::page_steps))]

ghost use Rattle.std.specs.Prelude.{◌≡◌, ◌+◌, ◌*◌, ◌≤◌, [], ◌++◌, length, take};
ghost use Rattle.arrayvec.specs.ArrayVec.{array_vec_len};
ghost use Rattle.report_theory.specs.Lines.{line_of, last_line_of};
ghost use Rattle.enclosures_theory.specs.Sizes.{bytes_taken, lines_most, line_most, last_most, page_most};
ghost use Rattle.enclosures_theory.specs.Output.{ended, lines_of};
ghost use Rattle.enclosures_theory.specs.Steps.{Gone};

use arrayvec::ArrayVec;
use decimal::put_whole;
use engine_theory::Answer;
use error_line::push_text;
use lines::{push_last_line, push_line};

// Room for all that is printed, `page_most`.
pub const PAGE_MOST: usize = 75_849;

// What is printed is put together in place, since two such pages would need as much of the stack again.
pub type Page = ArrayVec<u8, PAGE_MOST>;

// Puts the line of an answer, and its end.
fn push_answer(page: &mut Page, position: u64, a: Answer)
    requires { array_vec_len page.old + line_most ≤ PAGE_MOST }
    ensures { page.new.items ≡ page.old.items ++ ended (line_of position a) }
{
    push_line(page, position, a);
    page.push(b'\n');
}

// Puts the last line, and its end.
fn push_count(page: &mut Page, count: u64)
    requires { array_vec_len page.old + last_most ≤ PAGE_MOST }
    ensures { page.new.items ≡ page.old.items ++ ended (last_line_of count) }
{
    push_last_line(page, count);
    page.push(b'\n');
}

// Puts a line for each record of s, up to the first that is refused, and answers how many lines these are.
// No iterator: how far a record goes is known only when it is read.
// No type for a slice of at most `bytes_taken`: s is the caller's own, and such a type would be the program's alone.
fn push_answers(page: &mut Page, s: &[u8]) -> u64
    requires { (array_vec_len page.old + line_most * lines_most ≤ PAGE_MOST) × (length s.now ≤ bytes_taken) }
    ensures { Gone page.old.items s.now result page.new.items }
{
    let mut rest = s;
    let mut count: u64 = 0;
    while !rest.is_empty() {
        count += 1;
        match engine::answer_next(rest) {
            Ok((e, n)) => {
                push_answer(page, count, Ok(e));
                rest = &rest[n..];
            }
            Err(refusal) => {
                push_answer(page, count, Err(refusal));
                return count;
            }
        }
    }
    count
}

// Puts all that is printed for the bytes of s on an empty page.
pub fn push_page(page: &mut Page, s: &[u8])
    requires { (page.old.items ≡ []) × (length s.now ≤ bytes_taken) }
    ensures { page.new.items ≡ lines_of s.now }
{
    push_text(page, b"enclosures\n");
    let count = push_answers(page, s);
    push_count(page, count);
}

// Puts all that is printed for the bytes of s, and answers how many bytes it has.
pub fn put_page(s: &[u8], out: &mut [u8]) -> usize
    requires { (page_most ≤ length out.old) × (length s.now ≤ bytes_taken) }
    ensures out_after { take result out.new ≡ lines_of s.now }
    ensures upper_bound { result ≤ length out.new }
{
    let mut page = Page::new();
    push_page(&mut page, s);
    put_whole(page.as_slice(), out)
}
