// Reads records from standard input, answers each and prints a line for each (document 01, 'Records and doubles').
// Where reading or writing fails, a line on standard error says so.
#![tactic(auto)]

ghost use Rattle.std.specs.Prelude.{length};
ghost use Rattle.enclosures_theory.specs.Transfers.{ReadInto, WrittenOf};

use enclosures_theory::{Failed, Transfer};
use error_line::{ERROR_MOST, put_error};
use page::Page;
use page_output::push_output;
use std::io::{Read, Write};

const BYTES_TAKEN: usize = 4_096;

// Reads until the input ends or buf is full. No method of `Read` that reads on says how far a read that fails came.
fn read_all<R: Read>(input: &mut R, buf: &mut [u8]) -> Transfer
    ensures { ReadInto (length buf.old) result }
{
    let mut done: usize = 0;
    while done < buf.len() {
        let n = input.read(&mut buf[done..]).map_err(|_| Failed(done))?;
        if n == 0 {
            break;
        }
        done += n;
    }
    Ok(done)
}

// Writes all of buf, each time from where the last write stopped. `Write::write_all` does not say how far it came.
fn write_all<W: Write>(output: &mut W, buf: &[u8]) -> Transfer
    ensures { WrittenOf (length buf.now) result }
{
    let mut done: usize = 0;
    while done < buf.len() {
        let put = output.write(&buf[done..]).map_err(|_| Failed(done))?;
        if put < 1 {
            return Err(Failed(done));
        }
        done += put;
    }
    Ok(done)
}

fn main(rt: HostRuntime) {
    // Fixed arrays: no heap.
    let mut bytes = [0u8; BYTES_TAKEN];
    let mut page = Page::new();
    let mut error = [0u8; ERROR_MOST];
    let got = read_all(&mut rt.stdin(), &mut bytes);
    push_output(&mut page, got, &bytes);
    let put = write_all(&mut rt.stdout(), page.as_slice());
    let m = put_error(got, put, page.len(), &mut error);
    // Where this fails, too, there is nowhere left to say so.
    let _ = write_all(&mut rt.stderr(), &error[..m]);
}
