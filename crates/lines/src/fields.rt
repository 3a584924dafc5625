// The fields of lines and rows, each put into a buffer at a place; each function returns the place after its field,
// and asks for its own room.
ghost use Rattle.std.specs.Prelude.{◌≡◌, ◌+◌, ◌≤◌, length};
ghost use Rattle.std.proofs.lemmas.List.Edits.{sets};
ghost use Rattle.lines.specs.Digits.{byte_field, decimal, number_field};
ghost use Rattle.lines.specs.Line.{kind_field};

use crate::digits::{hex_digit, letter_for};

// A number in decimal, without leading zeros: the digits above the last, then the last.
pub fn put_decimal(number: u64, out: &mut [u8], at: usize) -> usize
    requires { at + length (decimal number) ≤ length out.old }
    ensures { (result ≡ at + length (decimal number)) × (out.new ≡ sets out.old at (decimal number)) }
{
    if number < 10 {
        out[at] = hex_digit(number as u8);
        return at + 1;
    }
    let last = put_decimal(number / 10, out, at);
    out[last] = hex_digit((number % 10) as u8);
    last + 1
}

// A number in decimal and the byte that ends it.
pub fn put_number_field(number: u64, end: u8, out: &mut [u8], at: usize) -> usize
    requires { at + length (number_field number end) ≤ length out.old }
    ensures { (result ≡ at + length (number_field number end))
        × (out.new ≡ sets out.old at (number_field number end)) }
{
    let last = put_decimal(number, out, at);
    out[last] = end;
    last + 1
}

// A byte as two upper-case hex digits, and a tab.
pub fn put_byte_field(byte: u8, out: &mut [u8], at: usize) -> usize
    requires { at + 3 ≤ length out.old }
    ensures { (result ≡ at + 3) × (out.new ≡ sets out.old at (byte_field byte)) }
{
    out[at] = hex_digit(byte / 16);
    out[at + 1] = hex_digit(byte % 16);
    out[at + 2] = b'\t';
    at + 3
}

// A kind's letter, and a tab.
pub fn put_kind_field(kind: u8, out: &mut [u8], at: usize) -> usize
    requires { at + 2 ≤ length out.old }
    ensures { (result ≡ at + 2) × (out.new ≡ sets out.old at (kind_field kind)) }
{
    out[at] = letter_for(kind);
    out[at + 1] = b'\t';
    at + 2
}
