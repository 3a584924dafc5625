// The dots as block characters in a frame, two dots to a character in each direction. Each character is three bytes of UTF-8.
ghost use Rattle.std.specs.Prelude.{◌≡◌, ◌≤◌};
ghost use Rattle.drawing.specs.Blocks.{block_at, blocks_at, blocks_bottom, blocks_edge, blocks_length, blocks_width};
ghost use Rattle.drawing.specs.Blocks.{byte_of_char, char_at, inner_char, pair_at, pair_of, side_char};

use crate::glass::Glass;

// The sixteen characters of four quarters, from none to all of them.
const QUADRANTS: [u16; 16] = [
    '\u{2002}' as u16,
    '▗' as u16,
    '▖' as u16,
    '▄' as u16,
    '▝' as u16,
    '▐' as u16,
    '▞' as u16,
    '▟' as u16,
    '▘' as u16,
    '▚' as u16,
    '▌' as u16,
    '▙' as u16,
    '▀' as u16,
    '▜' as u16,
    '▛' as u16,
    '█' as u16,
];

// One of the three bytes of a character. By hand, since one byte of a place is asked for, and not the whole character.
#[tactic(auto, unfolding(crate::specs::Blocks::byte_of_char))]
fn byte_of_char(char: u16, at: usize) -> u8
    ensures { result ≡ byte_of_char char at }
{
    match at {
        0 => (0xE0 + char / 4096) as u8,
        1 => (0x80 + char / 64 % 64) as u8,
        _ => (0x80 + char % 64) as u8,
    }
}

// Two dots beside each other as a number.
fn pair_of(left: bool, right: bool) -> usize
    ensures value { result ≡ pair_of left right }
    ensures most { result ≤ 3 }
{
    left as usize * 2 + right as usize
}

impl Glass<'_> {
    // The dot at a place of the grid and the one to its right.
    #[tactic(auto, unfolding(crate::specs::Blocks::pair_at))]
    fn pair_at(&self, x: usize, y: usize) -> usize
        requires { (x ≤ 254) × (y ≤ 255) }
        ensures value { result ≡ pair_at self.now.dots.now self.now.grid x y }
        ensures most { result ≤ 3 }
    {
        pair_of(self.is_lit(x, y), self.is_lit(x + 1, y))
    }

    // The character of four dots, the upper left one at this place of the grid.
    #[tactic(auto, unfolding(crate::specs::Blocks::block_at))]
    fn block_at(&self, x: usize, y: usize) -> u16
        requires { (x ≤ 254) × (y ≤ 254) }
        ensures { result ≡ block_at self.now.dots.now self.now.grid x y }
    {
        QUADRANTS[self.pair_at(x, y) * 4 + self.pair_at(x, y + 1)]
    }

    // The last column of the text.
    #[tactic(auto, unfolding(crate::specs::Blocks::blocks_edge))]
    fn blocks_edge(&self) -> usize
        ensures { result ≡ blocks_edge self.now.grid }
    {
        self.grid.size.columns as usize * 3 + 1
    }

    // The last row of the text.
    #[tactic(auto, unfolding(crate::specs::Blocks::blocks_bottom))]
    fn blocks_bottom(&self) -> usize
        ensures { result ≡ blocks_bottom self.now.grid }
    {
        self.last_y() / 2 + 1
    }

    // A side of the frame, with its corners.
    fn side_char(&self, upper: u16, lower: u16, y: usize) -> u16
        ensures { result ≡ side_char self.now.grid upper lower y }
    {
        if y == 0 {
            upper
        } else if y == self.blocks_bottom() {
            lower
        } else {
            '│' as u16
        }
    }

    // What stands between the sides.
    #[tactic(auto, unfolding(crate::specs::Blocks::inner_char))]
    fn inner_char(&self, x: usize, y: usize) -> u16
        requires { (1 ≤ x) × (x ≤ 127) × (y ≤ 127) }
        ensures { result ≡ inner_char self.now.dots.now self.now.grid x y }
    {
        if y == 0 || y == self.blocks_bottom() {
            '─' as u16
        } else {
            self.block_at(x * 2 - 1, y * 2 - 1)
        }
    }

    // The character at a column and a row of the text.
    #[tactic(auto, unfolding(crate::specs::Blocks::char_at))]
    fn char_at(&self, x: usize, y: usize) -> u16
        requires { (x ≤ 127) × (y ≤ 127) }
        ensures { result ≡ char_at self.now.dots.now self.now.grid x y }
    {
        if x == 0 {
            self.side_char('┌' as u16, '└' as u16, y)
        } else if x == self.blocks_edge() {
            self.side_char('┐' as u16, '┘' as u16, y)
        } else {
            self.inner_char(x, y)
        }
    }

    // The bytes of a row.
    #[tactic(auto, unfolding(crate::specs::Blocks::blocks_width))]
    pub fn blocks_width(&self) -> usize
        ensures { result ≡ blocks_width self.now.grid }
    {
        (self.grid.size.columns as usize * 3 + 2) * 3 + 1
    }

    // The bytes of all rows.
    #[tactic(auto, unfolding(crate::specs::Blocks::blocks_length))]
    pub fn blocks_length(&self) -> usize
        ensures { result ≡ blocks_length self.now.grid }
    {
        self.blocks_width() * (self.last_y() / 2 + 2)
    }

    // The byte at a place of a row.
    #[tactic(auto, unfolding(crate::specs::Blocks::blocks_at))]
    pub fn blocks_at(&self, at: usize, y: usize) -> u8
        requires { (at ≤ 366) × (y ≤ 127) }
        ensures { result ≡ blocks_at self.now.dots.now self.now.grid at y }
    {
        if at == (self.grid.size.columns as usize * 3 + 2) * 3 {
            b'\n'
        } else {
            byte_of_char(self.char_at(at / 3, y), at % 3)
        }
    }
}
