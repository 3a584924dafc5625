// What is told on standard error. Where even that cannot be written, there is nobody left to tell.
ghost use Rattle.std.specs.Prelude.{◌≡◌, ◌↔◌, true, IsErr, IsOk};
ghost use Rattle.std.specs.Io.KnownBytes.{Appends};

use crate::output::{Unheard, Unsent, heard, send};
use lines::Page;
use std::fmt::{Display, Write};
use std::io;

// More than any line that is told takes.
const LONGEST: usize = 1024;

// A program's name, before its words. Who tells and where come with each call, since a handle is made anew for each.
fn begin(program: &[u8]) -> Page<LONGEST> {
    let mut page = Page::new();
    page.put_text(program);
    page.put_text(b": ");
    page
}

// The line in one write, so that lines of several programs do not mix.
fn end<W: io::Write>(errors: &mut W, mut page: Page<LONGEST>) -> Result<(), Unheard> {
    page.put_byte(b'\n');
    heard(send(errors, page.text()))
}

// A program's name and words, as one line.
pub fn tell<W: io::Write>(errors: &mut W, program: &[u8], words: &[u8]) -> Result<(), Unheard> {
    let mut page = begin(program);
    page.put_text(words);
    end(errors, page)
}

// The same of whatever can be displayed.
pub fn tell_words<W: io::Write, D: Display + Drop>(
    errors: &mut W,
    program: &[u8],
    words: D,
) -> Result<(), Unheard> {
    let mut page = begin(program);
    // A page takes every text.
    let _ = write!(page, "{words}");
    end(errors, page)
}

// A session longer than the limit, and what became of the run, as `Nothing was played.`
pub fn tell_too_long<W: io::Write>(
    errors: &mut W,
    program: &[u8],
    left: &[u8],
) -> Result<(), Unheard> {
    let mut page = begin(program);
    page.put_text(b"the session is longer than 65,536 bytes, the most that is taken. ");
    page.put_text(left);
    end(errors, page)
}

// A read of standard input that failed, so that what was read before may end anywhere, and what became of the run.
pub fn tell_unread<W: io::Write>(
    errors: &mut W,
    program: &[u8],
    left: &[u8],
) -> Result<(), Unheard> {
    let mut page = begin(program);
    page.put_text(b"standard input could not be read to its end. ");
    page.put_text(left);
    end(errors, page)
}

// A write to standard output that failed.
pub fn tell_unwritten<W: io::Write>(errors: &mut W, program: &[u8]) -> Result<(), Unheard> {
    tell(
        errors,
        program,
        b"standard output could not be written. What stands there is not whole.",
    )
}

// Writes a text to standard output, or tells that it could not: whether all of it was written.
pub fn send_or_tell<O: io::Write, E: io::Write>(
    output: &mut O,
    errors: &mut E,
    program: &[u8],
    text: &[u8],
) -> Result<bool, Unheard>
    ensures { result ≡ Ok true → Appends (O.contents output.old) (O.contents output.new) text.now }
{
    whole_or_told(send(output, text), errors, program)
}

// What became of a text: whether all of it was written, and where it was not that is told.
pub fn whole_or_told<E: io::Write>(
    sent: Result<(), Unsent>,
    errors: &mut E,
    program: &[u8],
) -> Result<bool, Unheard>
    ensures whole { result ≡ Ok true ↔ IsOk sent }
    ensures unheard { sent ≡ Err Unsent.Unheard → IsErr result }
{
    match sent {
        Ok(()) => Ok(true),
        Err(Unsent::Failed) => {
            tell_unwritten(errors, program)?;
            Ok(false)
        }
        Err(Unsent::Unheard) => Err(Unheard),
    }
}
