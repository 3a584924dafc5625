// The size of a picture, and the display cell that each position shows. Lines, rows and columns count from 0.
ghost use Rattle.std.specs.Prelude.{◌≡◌, ◌≤◌, ◌<◌};
ghost use Rattle.dots.specs.Geometry.{ShownWithin, cell_at, cell_in, is_shown_in, picture_length};
ghost use Rattle.dots.specs.Promises.{IsShownPromise, RowsOfPromise, ShownAtPromise};

use crate::panel::{Profile, on_glass, place_at, size_of};
use controller::Function;

// No character is taller, and every picture has room in so many bytes: two lines of 40 columns, or four of 20.
const TALLEST: usize = 8;

pub const PICTURE_ROOM: usize = 2 * TALLEST * 40;

// The rows of a character: eight, whatever N and F are.
#[tactic(auto, unfolding(crate::specs::Geometry::height))]
pub fn rows_of(function: Function) -> usize
    ensures { RowsOfPromise function result }
{
    8
}

// The bytes of a picture.
pub fn picture_length(function: Function, profile: Profile) -> usize
    ensures { result ≡ picture_length function profile }
{
    let size = size_of(profile);
    size.lines as usize * rows_of(function) * size.columns as usize
}

// The display cell that a position shows, with so many lines driven and so many cells to a line: none where its line is not
// driven.
#[tactic(auto, unfolding(crate::specs::Geometry::cell_in))]
fn cell_in(
    driven: usize,
    length: usize,
    shift: usize,
    line: usize,
    position: usize,
) -> Option<usize>
    requires { (0 < length) × (length ≤ 80) × (driven ≤ 2) × (shift < 256) × (position < 4096) }
    ensures { result ≡ cell_in driven length shift line position }
{
    if line < driven {
        Some(line * length + (position + shift) % length)
    } else {
        None
    }
}

// The display cell that a position shows: N=1 drives two lines of 40 cells, N=0 one line of 80. The numbers stand in the calls,
// since a remainder by a number that is known is no division.
#[tactic(auto, unfolding(crate::specs::Geometry::cell_in))]
pub fn cell_at(n: bool, shift: usize, line: usize, position: usize) -> Option<usize>
    requires { (shift < 256) × (position < 4096) }
    ensures { (result ≡ cell_at n shift line position) × (ShownWithin result) }
{
    if n {
        cell_in(2, 40, shift, line, position)
    } else {
        cell_in(1, 80, shift, line, position)
    }
}

// The display cell that a position of the glass shows, or none where its line is not driven.
#[tactic(auto, using(crate::proofs::Panels::place_small))]
pub fn shown_at(n: bool, shift: u8, profile: Profile, line: u8, column: u8) -> Option<usize>
    ensures { ShownAtPromise n shift profile line column result }
{
    let place = place_at(profile, line as usize, column as usize);
    cell_at(n, shift as usize, place.line, place.position)
}

// Whether a position of the glass shows this display cell, with so many lines of so many cells driven: its line is driven, and
// its place after the shift is on the glass.
#[tactic(auto, unfolding(crate::specs::Geometry::is_shown_in))]
fn is_shown_in(driven: u8, length: u8, shift: u8, profile: Profile, cell: u8) -> bool
    requires { (0 < length) × (length ≤ 80) }
    ensures { result ≡ is_shown_in driven length shift profile cell }
{
    let line = cell / length;
    let position = (cell % length + (length - shift % length)) % length;
    line < driven && on_glass(profile, line, position)
}

// Whether a position of the glass shows this display cell, with the numbers of `cell_at`.
#[tactic(auto, unfolding(crate::specs::Geometry::is_shown_in))]
pub fn is_shown(n: bool, shift: u8, profile: Profile, cell: u8) -> bool
    ensures { IsShownPromise n shift profile cell result }
{
    if n {
        is_shown_in(2, 40, shift, profile, cell)
    } else {
        is_shown_in(1, 80, shift, profile, cell)
    }
}
