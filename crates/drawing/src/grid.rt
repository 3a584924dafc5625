// A panel's dots as a grid: before each character stands an empty column, above each line an empty row, and one of each at
// the right and lower edge. Places count from 0 at the upper left corner.
ghost use Rattle.std.specs.Prelude.{◌≡◌, ◌≤◌, get_or};
ghost use Rattle.drawing.specs.Grid.{dot_of};

use dots::{Profile, Size};

// What is drawn: the panel, its size, and rows of dots to a character.
#[derive(Clone, Copy)]
pub struct Grid {
    pub profile: Profile,
    pub size: Size,
    pub rows: usize,
}

// One of the five dots of a byte, counted from the left from 1.
pub fn dot_of(byte: u8, dot: usize) -> bool
    requires { dot ≤ 5 }
    ensures { result ≡ dot_of byte dot }
{
    (byte >> (5 - dot)) % 2 == 1
}

// The byte at a place of a slice, and 0 past its end.
pub fn byte_in(bytes: &[u8], place: usize) -> u8
    ensures { result ≡ get_or bytes.now place 0 }
{
    bytes.get(place).copied().unwrap_or(0)
}
