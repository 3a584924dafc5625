// A glass that is drawn, and the dot at each place of its grid.
ghost use Rattle.std.specs.Prelude.{false, ◌≡◌, ◌≤◌};
ghost use Rattle.drawing.specs.Grid.{Small, byte_of, is_between, is_lit, last_x, last_y};

use crate::grid::{Grid, byte_in, dot_of};
use controller::Record;

// Its grid, the picture's dots, and the controller's record and memory. No panel is larger than `small` says.
#[derive(Clone, Copy)]
pub struct Glass<'a> {
    pub grid: Grid,
    pub dots: &'a [u8],
    pub rec: Record,
    pub memory: &'a [u8],
    pub ghost small: { Small grid },
}

// The bounds of columns and rows stay in the clauses: places come by division from a usize, and as u8 they would be converted for
// each product.
impl Glass<'_> {
    // The last column of the grid.
    #[tactic(auto, unfolding(crate::specs::Grid::last_x))]
    pub fn last_x(&self) -> usize
        ensures value { result ≡ last_x self.now.grid }
        ensures most { result ≤ 240 }
    {
        self.grid.size.columns as usize * 6
    }

    // The last row of the grid.
    #[tactic(auto, unfolding(crate::specs::Grid::last_y))]
    pub fn last_y(&self) -> usize
        ensures value { result ≡ last_y self.now.grid }
        ensures most { result ≤ 48 }
    {
        self.grid.size.lines as usize * (self.grid.rows + 1)
    }

    // Whether a place stands between two characters or at an edge.
    #[tactic(auto, unfolding(crate::specs::Grid::is_between))]
    pub fn is_between(&self, x: usize, y: usize) -> bool
        ensures { result ≡ is_between self.now.grid x y }
    {
        x % 6 == 0 || y % (self.grid.rows + 1) == 0
    }

    // The byte of the picture that holds the dot at a place: the empty rows above it are not counted.
    #[tactic(auto, unfolding(crate::specs::Grid::byte_of))]
    fn byte_of(&self, x: usize, y: usize) -> usize
        requires { (x ≤ 255) × (y ≤ 255) × (is_between self.now.grid x y ≡ false) }
        ensures { result ≡ byte_of self.now.grid x y }
    {
        let empty = y / (self.grid.rows + 1) + 1;
        (y - empty) * self.grid.size.columns as usize + x / 6
    }

    // Whether the dot at a place is lit; between characters there is none.
    #[tactic(auto, unfolding(crate::specs::Grid::is_lit))]
    pub fn is_lit(&self, x: usize, y: usize) -> bool
        requires { (x ≤ 255) × (y ≤ 255) }
        ensures { result ≡ is_lit self.now.dots.now self.now.grid x y }
    {
        !self.is_between(x, y) && dot_of(byte_in(self.dots, self.byte_of(x, y)), x % 6)
    }
}
