// The dots as text in a frame: `#` lit, `.` dark, blanks between the characters.
ghost use Rattle.std.specs.Prelude.{◌≡◌, ◌≤◌};
ghost use Rattle.drawing.specs.Frame.{border, dot_char, frame_at, is_end};

use crate::glass::Glass;

fn is_end(last: usize, at: usize) -> bool
    ensures { result ≡ is_end last at }
{
    at == 0 || at == last
}

// This and the next are one character or another, as in `state`: a function of the two would say no more.
fn border_for(corner: bool) -> u8
    ensures { result ≡ border corner }
{
    if corner { b'+' } else { b'-' }
}

fn char_for(lit: bool) -> u8
    ensures { result ≡ dot_char lit }
{
    if lit { b'#' } else { b'.' }
}

impl Glass<'_> {
    // The byte of the text at a column and a row of it; past the last column is the end of the line.
    #[tactic(auto, unfolding(crate::specs::Frame::frame_at))]
    pub fn frame_at(&self, x: usize, y: usize) -> u8
        requires { (x ≤ 255) × (y ≤ 255) }
        ensures { result ≡ frame_at self.now.dots.now self.now.grid x y }
    {
        let right = self.last_x();
        if x == right + 1 {
            b'\n'
        } else if is_end(self.last_y(), y) {
            border_for(is_end(right, x))
        } else if is_end(right, x) {
            b'|'
        } else if self.is_between(x, y) {
            b' '
        } else {
            char_for(self.is_lit(x, y))
        }
    }
}
