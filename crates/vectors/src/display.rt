// What is seen after a step, as text.
use crate::bench::Bench;
use crate::record::see_record;
use crate::row::View;
use crate::shapes::{Letters, Shape, cursor_on, glass_of};
use lines::Page;
use std::fmt;
use std::fmt::Write;

// What is seen: what does not fit is left out.
pub type Seen = Page<64>;

// The letters of so many lines, ~ where the dots are no letter's, and the cursor's line and column, counted from 1.
fn see_letters(
    seen: &mut Seen,
    codes: &[Option<u8>; 32],
    cursor: Option<usize>,
    lines: usize,
) -> fmt::Result {
    for line in codes.chunks_exact(16).take(lines) {
        seen.put_byte(b'|');
        for code in line {
            seen.put_byte(code.unwrap_or(b'~'));
        }
    }
    match cursor {
        Some(at) => write!(seen, "| cursor {}:{:02}", at / 16 + 1, at % 16 + 1),
        None => write!(seen, "| no cursor"),
    }
}

// The address of the cell that was filled with this code. The cells were filled in their order from 21h on, so 49h is in
// cell 40, which with two lines is the first of line 2. A position with none of these codes has no address: FF
// stands in no table of the manual, so that it shows as a difference.
fn address_of(n: bool, code: Option<u8>) -> u8 {
    match code {
        Some(code @ 0x49..) if n => code - 0x49 + 0x40,
        Some(code @ 0x21..) => code - 0x21,
        _ => 0xFF,
    }
}

// The addresses at the first eight positions of so many lines, a blank after each.
fn see_addresses(seen: &mut Seen, codes: &[Option<u8>; 32], n: bool, lines: usize) -> fmt::Result {
    for (number, line) in codes.chunks_exact(16).take(lines).enumerate() {
        if 0 < number {
            write!(seen, "| ")?;
        }
        for code in line.iter().take(8) {
            seen.put_hex(address_of(n, *code));
            seen.put_byte(b' ');
        }
    }
    Ok(())
}

// The rows of a position, each five dots, bit 4 leftmost, and a blank.
fn see_dots(seen: &mut Seen, shape: Shape) -> fmt::Result {
    for row in shape {
        for dot in [16, 8, 4, 2, 1] {
            seen.put_byte(if row & dot == 0 { b'.' } else { b'*' });
        }
        seen.put_byte(b' ');
    }
    Ok(())
}

// What is seen of a controller in this way of looking.
pub fn see(seen: &mut Seen, letters: &Letters, bench: &Bench, view: View) -> fmt::Result {
    // The glass is drawn, and its letters are looked up, where they are asked for alone.
    match view {
        View::Letters { lines } => {
            let glass = glass_of(bench);
            see_letters(seen, &letters.codes_of(glass), cursor_on(&glass), lines)
        }
        View::Addresses { lines } => {
            let codes = letters.codes_of(glass_of(bench));
            see_addresses(seen, &codes, bench.rec.function.n, lines)
        }
        View::First => see_dots(seen, glass_of(bench)[0]),
        View::Second => see_dots(seen, glass_of(bench)[1]),
        View::Record => see_record(seen, bench.rec),
    }
}
