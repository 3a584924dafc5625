// Text put into a lent buffer at a place, for reports whose length is not known before: what does not fit is left out. Each
// function returns the place after what it put. `Page` is for those who own their buffer; `import` and `capture` of the captures
// write into the caller's, and what they promise is said by place and buffer (`Text.putting`).
ghost use Rattle.lines.specs.Promises.{FirstPromise, PutBytePromise, PutHexPromise, PutNumberPromise, PutTextPromise};

use crate::digits::hex_digit;
use crate::fields::put_decimal;

// One byte.
pub fn put_byte(out: &mut [u8], at: usize, byte: u8) -> usize
    ensures { PutBytePromise out.old at byte result out.new }
{
    if out.len() <= at {
        return at;
    }
    out[at] = byte;
    at + 1
}

// A text, byte by byte, as `putting` has it: what does not fit is left out.
pub fn put_text(out: &mut [u8], at: usize, text: &[u8]) -> usize
    ensures { PutTextPromise out.old at text.now result out.new }
{
    let mut next = at;
    for &byte in text {
        next = put_byte(out, next, byte);
    }
    next
}

// A number in decimal, without leading zeros: by `write!` it would be written on a Page alone, and a lent slice has none.
pub fn put_number(out: &mut [u8], at: usize, number: u64) -> usize
    ensures { PutNumberPromise out.old at number result out.new }
{
    let mut digits = [0u8; 20];
    let length = put_decimal(number, &mut digits, 0);
    put_text(out, at, first(&digits, length))
}

// A byte as two hex digits, as `Page::put_hex` puts them on a page.
pub fn put_hex(out: &mut [u8], at: usize, byte: u8) -> usize
    ensures { PutHexPromise out.old at byte result out.new }
{
    let low = put_byte(out, at, hex_digit(byte / 16));
    put_byte(out, low, hex_digit(byte % 16))
}

// The first bytes of a buffer, as many as this, or all where it has fewer: for those who fill a buffer of fixed size and are told
// how much of it.
pub fn first(bytes: &[u8], count: usize) -> &[u8]
    ensures { FirstPromise bytes.now count result.now }
{
    bytes.get(..count).unwrap_or(bytes)
}
