// All 144 cells as hexadecimal, sixteen to a line: the display cells, then the pattern cells. A display cell that no position of
// the glass shows is marked `*`, and behind sixteen display cells they stand as letters.
ghost use Rattle.std.specs.Prelude.{◌≡◌, ◌++◌, ◌≤◌, get_or};
ghost use Rattle.drawing.specs.Listing.{cell_field, cell_char, is_spare, label_for, legend, listing_at, mark_for};
ghost use Rattle.drawing.specs.Listing.{letters_field, text_column};
ghost use Rattle.drawing.specs.Numbers.{two_wide};

use crate::glass::Glass;
use crate::grid::byte_in;
use crate::letters::letter_for;
use crate::numbers::places;
use dots::is_shown;
use lines::hex_digit;

// The name of a memory, and a cell of it.
#[tactic(auto, unfolding(crate::specs::Numbers::padded))]
fn label(name: &[u8; 8], cell: usize) -> [u8; 10]
    ensures { result ≡ name.now ++ two_wide cell }
{
    let mut label = [b' '; 10];
    label[8..].copy_from_slice(&places::<2>(cell, b' '));
    label[..8].copy_from_slice(name);
    label
}

// What stands before a line of cells: the memory, and its first cell there.
#[tactic(auto, unfolding(crate::specs::Listing::label_for))]
fn label_for(line: usize) -> [u8; 10]
    requires { line ≤ 255 }
    ensures { result ≡ label_for line }
{
    if line < 5 {
        label(b"display ", line * 16)
    } else {
        label(b"pattern ", (line - 5) * 16)
    }
}

fn mark_for(spare: bool) -> u8
    ensures { result ≡ mark_for spare }
{
    if spare { b'*' } else { b' ' }
}

// One of the four bytes of a cell: a blank, its mark, and two digits.
#[tactic(auto, unfolding(crate::specs::Listing::cell_char))]
fn cell_char(spare: bool, byte: u8, at: usize) -> u8
    ensures { result ≡ cell_char spare byte at }
{
    match at {
        0 => b' ',
        1 => mark_for(spare),
        2 => hex_digit(byte / 16),
        _ => hex_digit(byte % 16),
    }
}

impl Glass<'_> {
    // Whether the cell at this place of the memory is a display cell that the glass does not show.
    #[tactic(auto, unfolding(crate::specs::Listing::is_spare))]
    fn is_spare(&self, place: usize) -> bool
        ensures { result ≡ is_spare self.now.rec.function.n self.now.rec.shift self.now.grid.profile place }
    {
        let rec = self.rec;
        place < 80 && !is_shown(rec.function.n, rec.shift, self.grid.profile, place as u8)
    }

    // A byte of a cell's four.
    fn cell_field(&self, place: usize, at: usize) -> u8
        ensures { result ≡ cell_field self.now.memory.now
            self.now.rec.function.n self.now.rec.shift self.now.grid.profile place at }
    {
        cell_char(self.is_spare(place), byte_in(self.memory, place), at)
    }

    // The letters of a line's sixteen cells between bars, two blanks before them.
    #[tactic(auto, unfolding(crate::specs::Listing::letters_field))]
    fn letters_field(&self, line: usize, at: usize) -> u8
        requires { (line ≤ 255) × (at ≤ 255) }
        ensures { result ≡ letters_field self.now.memory.now line at }
    {
        match at {
            0 | 1 => b' ',
            2 | 19 => b'|',
            _ => letter_for(byte_in(self.memory, line * 16 + (at - 3))),
        }
    }

    // What stands behind the cells: the letters of display cells, and nothing behind pattern cells.
    #[tactic(auto, unfolding(crate::specs::Listing::text_column))]
    fn text_column(&self, line: usize, at: usize) -> u8
        requires { at ≤ 255 }
        ensures { result ≡ text_column self.now.memory.now line at }
    {
        if line < 5 {
            self.letters_field(line, at)
        } else {
            b' '
        }
    }

    // The byte of the listing at a column of a line; past the letters is the end of the line.
    #[tactic(auto, unfolding(crate::specs::Listing::listing_at))]
    pub fn listing_at(&self, x: usize, line: usize) -> u8
        requires { (x ≤ 255) × (line ≤ 255) }
        ensures { result ≡ listing_at self.now.memory.now
            self.now.rec.function.n self.now.rec.shift self.now.grid.profile x line }
    {
        match x {
            94 => b'\n',
            0..=9 => label_for(line)[x],
            10..=73 => self.cell_field(line * 16 + (x - 10) / 4, (x - 10) % 4),
            _ => self.text_column(line, x - 74),
        }
    }
}

// A byte of what the marks mean.
pub fn legend_at(place: usize) -> u8
    ensures { result ≡ get_or legend place 0 }
{
    byte_in(b"display cells marked * are not on this glass\n", place)
}
