// What goes to standard output, by how far reading came.
#![tactic(auto)]

ghost use Rattle.std.specs.Prelude.{◌≡◌, ◌≤◌, [], length, take};
ghost use Rattle.enclosures_theory.specs.Sizes.{bytes_taken, page_most};
ghost use Rattle.enclosures_theory.specs.Transfers.{ReadInto, output_of};

use enclosures_theory::Transfer;
use page::{Page, push_page, put_page};

// Puts what goes to standard output after a read into bytes, which has room for just as many as are taken, on an empty
// page.
pub fn push_output(page: &mut Page, got: Transfer, bytes: &[u8])
    requires empty { (page.old.items ≡ []) × (length bytes.now ≡ bytes_taken) }
    requires read_into { ReadInto (length bytes.now) got }
    ensures { page.new.items ≡ output_of got bytes.now }
{
    match got {
        Ok(n) => push_page(page, &bytes[..n]),
        Err(_) => {}
    }
}

// Puts what goes to standard output after a read into bytes, which has room for just as many as are taken, and answers
// how many bytes it has.
pub fn put_output(got: Transfer, bytes: &[u8], out: &mut [u8]) -> usize
    requires page_most_in_bounds { (page_most ≤ length out.old) × (length bytes.now ≡ bytes_taken) }
    requires read_into { ReadInto (length bytes.now) got }
    ensures out_after { take result out.new ≡ output_of got bytes.now }
    ensures upper_bound { result ≤ length out.new }
{
    match got {
        Ok(n) => put_page(&bytes[..n], out),
        Err(_) => 0,
    }
}
