// Writing session lines, and a report's header and rows, into a lent buffer.
ghost use Rattle.std.specs.Prelude.{◌≡◌, ◌≤◌, length};
ghost use Rattle.std.proofs.lemmas.List.Edits.{sets};
ghost use Rattle.lines.specs.Line.{line};
ghost use Rattle.lines.specs.Promises.{WriteHeaderPromise, WriteLinePromise, WriteRowPromise};
ghost use Rattle.lines.specs.ReportText.{row, row_size};

use crate::fields::{put_byte_field, put_kind_field, put_number_field};
use crate::text::put_text;
use controller::{Answer, is_bad};

// Kind, byte and wait come apart here and in the call below, as C gives them (`write_line`).
fn put_line(kind: u8, byte: u8, wait: u32, out: &mut [u8]) -> usize
    requires { 16 ≤ length out.old }
    ensures { (result ≡ length (line kind byte wait)) × (out.new ≡ sets out.old 0 (line kind byte wait)) }
{
    let second = put_kind_field(kind, out, 0);
    let third = put_byte_field(byte, out, second);
    put_number_field(wait as u64, b'\n', out, third)
}

fn put_row(number: u64, answer: u8, byte: u8, busy: u32, out: &mut [u8]) -> usize
    requires { row_size ≤ length out.old }
    ensures { (result ≡ length (row number answer byte busy))
        × (out.new ≡ sets out.old 0 (row number answer byte busy)) }
{
    let second = put_number_field(number, b'\t', out, 0);
    let third = put_number_field(answer as u64, b'\t', out, second);
    let fourth = put_byte_field(byte, out, third);
    put_number_field(busy as u64, b'\n', out, fourth)
}

// The line of a transfer, into a buffer of at least 16 bytes.
pub fn write_line(kind: u8, byte: u8, wait: u32, out: &mut [u8]) -> Result<usize, Answer>
    ensures { WriteLinePromise kind byte wait out.old result out.new }
{
    if is_bad(kind, byte) {
        return Err(Answer::BadTransfer);
    }
    if out.len() < 16 {
        return Err(Answer::OutputShort);
    }
    Ok(put_line(kind, byte, wait, out))
}

// A report's row, into a buffer of at least 42 bytes. The answer is a number, and any may be told (`WriteRowPromise`).
pub fn write_row(
    number: u64,
    answer: u8,
    byte: u8,
    busy: u32,
    out: &mut [u8],
) -> Result<usize, Answer>
    ensures { WriteRowPromise number answer byte busy out.old result out.new }
{
    if out.len() < 42 {
        return Err(Answer::OutputShort);
    }
    Ok(put_row(number, answer, byte, busy, out))
}

// A report's header, into a buffer of at least 20 bytes.
pub fn write_header(out: &mut [u8]) -> Result<usize, Answer>
    ensures { WriteHeaderPromise out.old result out.new }
{
    if out.len() < 20 {
        return Err(Answer::OutputShort);
    }
    Ok(put_text(out, 0, b"no\tanswer\tbyte\tbusy\n"))
}
