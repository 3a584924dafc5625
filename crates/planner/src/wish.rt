// A wish for the panel.
ghost use Rattle.std.specs.Prelude.{◌≡◌, ◌<◌};
ghost use Rattle.planner.specs.Wish.{follows, is_wish, marked, marks_fit};

use controller::{Control, Entry, Frequency, Function, is_in_range, line_length};

// How the panel is to stand: the seven bits, the shift, and the display cell of the cursor; and the frequency of the module that
// the plan is for. The cells to be written are given beside it, as 144 marks and 144 values.
#[derive(Clone, Copy, PartialEq, Eq)]
pub struct Wish {
    pub function: Function,
    pub control: Control,
    pub entry: Entry,
    pub shift: u8,
    pub cursor: u8,
    pub frequency: Frequency,
}

// A byte for each of the 144 cells: its mark, or its value. Marks and values are lent side by side, since a contract would have
// to reach through a struct of both loans for each (`cells.entry.marks.now`), and only `write_cell` reads both.
pub type Cells = [u8; 144];

// Whether each mark is 0 or 1.
fn marks_fit(marks: &[u8]) -> bool
    ensures { result ≡ marks_fit marks.now }
{
    marks.iter().all(|&mark| mark <= 1)
}

// Whether a wish is one. N=F=1 is not allowed.
#[tactic(auto, unfolding(crate::specs::Wish::is_wish))]
pub fn is_wish(wish: Wish, marks: &[u8]) -> bool
    ensures { result ≡ is_wish wish marks.now }
{
    !(wish.function.n && wish.function.f)
        && wish.shift < line_length(wish.function.n)
        && wish.cursor < 80
        && is_in_range(wish.frequency)
        && marks_fit(marks)
}

// Whether the cell at this place is to be written. The caller has the place from his range, and each command asks for its own
// room.
#[tactic(auto, unfolding(crate::specs::Wish::marked))]
pub fn is_marked(marks: &Cells, place: usize) -> bool
    requires { place < 144 }
    ensures { result ≡ marked marks.now place }
{
    marks[place] == 1
}

// Whether the cell before this place, in the same memory, is to be written.
#[tactic(auto, unfolding(crate::specs::Wish::follows))]
pub fn follows_marked(marks: &Cells, place: usize) -> bool
    requires { place < 144 }
    ensures { result ≡ follows marks.now place }
{
    place != 0 && place != 80 && is_marked(marks, place - 1)
}
