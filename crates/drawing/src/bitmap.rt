// The dots as a portable bitmap: each place of the grid is eight pixels wide and high, the last of them empty, so that a byte of
// the bitmap is one place and the dots stand apart.
ghost use Rattle.std.specs.Prelude.{◌≡◌, ◌≤◌};
ghost use Rattle.drawing.specs.Bitmap.{bitmap_head, head_for, pixels_at};

use crate::glass::Glass;
use crate::numbers::places;

// `P4`, and the width and the height in pixels.
#[tactic(auto, using(crate::proofs::Laws::Numbers::four_zeros))]
fn head_for(width: usize, height: usize) -> [u8; 13]
    ensures { result ≡ head_for width height }
{
    let mut head = *b"P4\n0000 0000\n";
    head[8..12].copy_from_slice(&places::<4>(height, b'0'));
    head[3..7].copy_from_slice(&places::<4>(width, b'0'));
    head
}

impl Glass<'_> {
    // The head of a panel's bitmap.
    pub fn bitmap_head(&self) -> [u8; 13]
        ensures { result ≡ bitmap_head self.now.grid }
    {
        head_for((self.last_x() + 1) * 8, (self.last_y() + 1) * 8)
    }

    // Eight pixels: the place in this column of the grid, at this row of pixels.
    #[tactic(auto, unfolding(crate::specs::Bitmap::pixels_at))]
    pub fn pixels_at(&self, x: usize, y: usize) -> u8
        requires { (x ≤ 255) × (y ≤ 511) }
        ensures { result ≡ pixels_at self.now.dots.now self.now.grid x y }
    {
        if y % 8 != 7 && self.is_lit(x, y / 8) {
            0b1111_1110
        } else {
            0
        }
    }
}
