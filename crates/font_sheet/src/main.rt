// Writes the shapes of the fixed table, sixteen beside each other under their letters and codes, for a person to look at. Each
// block is a picture: a line of sixteen characters, with the display on and no cursor.
#![tactic(auto)]

ghost use Rattle.std.specs.Prelude.{◌<◌};

use controller::{Frequency, Record, after_reset};
use dots::{Profile, Size, picture};
use lines::Page;
use std::fmt::Write;
use std::process::ExitCode;
use telling::{send, status_of};

// With more room than the sheet takes.
type Sheet = Page<6_144>;

// A record that shows the display cells from cell 0 on.
fn shown() -> Record {
    let mut rec = after_reset(Frequency::OLDER);
    rec.control.d = true;
    rec
}

// A memory whose first sixteen display cells hold sixteen codes from this one on: `first` and sixteen more fit a byte, in three
// clauses.
fn codes_from(first: u8) -> [u8; 144]
    requires { first < 240 }
{
    let mut memory = [0x20u8; 144];
    for (cell, code) in memory.iter_mut().zip(first..first + 16) {
        *cell = code;
    }
    memory
}

// The letter of a code on the glass: 5Ch is the yen sign, and from 7Eh on there is none.
fn letter_of(code: u8) -> char {
    match code {
        0x5C => '¥',
        0x7E.. => ' ',
        _ => code as char,
    }
}

// The line of letters and codes over a block: for each seven columns, blanks, the letter and two digits.
fn put_codes(sheet: &mut Sheet, first: u8)
    requires { first < 240 }
{
    for code in first..first + 16 {
        // A page takes every text.
        let _ = write!(sheet, "   {} ", letter_of(code));
        sheet.put_hex(code);
    }
    sheet.put_byte(b'\n');
}

// Seven columns: two blanks and five dots, bit 4 leftmost.
fn put_dots(sheet: &mut Sheet, dots: u8) {
    sheet.put_text(b"  ");
    for bit in [16, 8, 4, 2, 1] {
        sheet.put_byte(if dots & bit == 0 { b'.' } else { b'#' });
    }
}

// Sixteen shapes under their codes, row by row.
fn put_block(sheet: &mut Sheet, first: u8)
    requires { first < 240 }
{
    let panel = Profile::Plain(Size {
        columns: 16,
        lines: 1,
    });
    let mut shapes = [0u8; 128];
    // Nothing is refused: the record is sound, and memory and shapes are as long as they must be.
    let _ = picture(shown(), &codes_from(first), panel, false, &mut shapes);
    put_codes(sheet, first);
    for row in shapes.chunks(16) {
        for &dots in row {
            put_dots(sheet, dots);
        }
        sheet.put_byte(b'\n');
    }
}

// The blocks from 20h to 7Fh, with an empty line between two.
fn put_sheet(sheet: &mut Sheet) {
    put_block(sheet, 0x20);
    for block in 3..8 {
        sheet.put_byte(b'\n');
        put_block(sheet, block * 16);
    }
}

fn main(rt: HostRuntime) -> ExitCode {
    let mut sheet = Sheet::new();
    put_sheet(&mut sheet);
    status_of(send(&mut rt.stdout(), sheet.text()))
}
