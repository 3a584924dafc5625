// The glass as plain text: a row of letters for each line of the glass, and under it a row that marks the counter's place.
ghost use Rattle.std.specs.Prelude.{◌≡◌, ◌≤◌};
ghost use Rattle.dots.specs.Geometry.{shown_at};
ghost use Rattle.drawing.specs.Letters.{caret_at, column_at, counter_shown, from_column, letter_at, letter_for, letter_shown};
ghost use Rattle.drawing.specs.Letters.{letters_at, letters_length, letters_width, side_at};

use crate::glass::Glass;
use crate::grid::byte_in;
use controller::Counter;
use dots::shown_at;

// The letter of a code: `~` for a pattern, a blank for a code that the font leaves blank.
#[tactic(auto, unfolding(crate::specs::Letters::letter_for))]
pub fn letter_for(code: u8) -> u8
    ensures { result ≡ letter_for code }
{
    match code {
        0x00..=0x0F => b'~',
        0x20..=0x7D => code,
        _ => b' ',
    }
}

// What a position reads as, by what it shows.
fn letter_shown(memory: &[u8], shown: Option<usize>) -> u8
    ensures { result ≡ letter_shown memory.now shown }
{
    match shown {
        Some(cell) => letter_for(byte_in(memory, cell)),
        None => b' ',
    }
}

// Whether the counter is on the cell that is shown: one look at two values, so that dots keeps its own test to itself.
fn counter_shown(counter: Counter, shown: Option<usize>) -> bool
    ensures { result ≡ counter_shown counter shown }
{
    match (counter, shown) {
        (Counter::Display(at), Some(cell)) => at as usize == cell,
        _ => false,
    }
}

// What stands before and after a row.
fn side_at(y: usize) -> u8
    ensures { result ≡ side_at y }
{
    if y % 2 == 0 { b'|' } else { b' ' }
}

impl Glass<'_> {
    // What a line and a column of the glass show.
    fn shown_on(&self, line: usize, column: usize) -> Option<usize>
        requires { (line ≤ 255) × (column ≤ 255) }
        ensures { result ≡ shown_at self.now.rec.function.n self.now.rec.shift self.now.grid.profile line column }
    {
        let rec = self.rec;
        shown_at(
            rec.function.n,
            rec.shift,
            self.grid.profile,
            line as u8,
            column as u8,
        )
    }

    // The letter at a line and a column of the glass.
    #[tactic(auto, unfolding(crate::specs::Letters::letter_at))]
    fn letter_at(&self, line: usize, column: usize) -> u8
        requires { (line ≤ 255) × (column ≤ 255) }
        ensures { result ≡ letter_at self.now.memory.now self.now.rec self.now.grid.profile line column }
    {
        if self.rec.control.d {
            letter_shown(self.memory, self.shown_on(line, column))
        } else {
            b' '
        }
    }

    // What stands under a line and a column of the glass.
    #[tactic(auto, unfolding(crate::specs::Letters::caret_at))]
    fn caret_at(&self, line: usize, column: usize) -> u8
        requires { (line ≤ 255) × (column ≤ 255) }
        ensures { result ≡ caret_at self.now.rec self.now.grid.profile line column }
    {
        if counter_shown(self.rec.counter, self.shown_on(line, column)) {
            b'^'
        } else {
            b' '
        }
    }

    // A column of the glass in a row of the text.
    #[tactic(auto, unfolding(crate::specs::Letters::column_at))]
    fn column_at(&self, column: usize, y: usize) -> u8
        requires { (column ≤ 255) × (y ≤ 255) }
        ensures { result ≡ column_at self.now.memory.now self.now.rec self.now.grid.profile column y }
    {
        if y % 2 == 0 {
            self.letter_at(y / 2, column)
        } else {
            self.caret_at(y / 2, column)
        }
    }

    // A row of the text from the glass's first column on.
    #[tactic(auto, unfolding(crate::specs::Letters::from_column))]
    fn from_column(&self, column: usize, y: usize) -> u8
        requires { (column ≤ 255) × (y ≤ 255) }
        ensures { result ≡ from_column self.now.memory.now self.now.rec self.now.grid column y }
    {
        let columns = self.grid.size.columns as usize;
        if column < columns {
            self.column_at(column, y)
        } else if column == columns {
            side_at(y)
        } else {
            b'\n'
        }
    }

    // The byte of the text at a place of a row.
    #[tactic(auto, unfolding(crate::specs::Letters::letters_at))]
    pub fn letters_at(&self, x: usize, y: usize) -> u8
        requires { (x ≤ 255) × (y ≤ 255) }
        ensures { result ≡ letters_at self.now.memory.now self.now.rec self.now.grid x y }
    {
        if x == 0 {
            side_at(y)
        } else {
            self.from_column(x - 1, y)
        }
    }

    #[tactic(auto, unfolding(crate::specs::Letters::letters_width))]
    pub fn letters_width(&self) -> usize
        ensures { result ≡ letters_width self.now.grid.size }
    {
        self.grid.size.columns as usize + 3
    }

    #[tactic(auto, unfolding(crate::specs::Letters::letters_length))]
    pub fn letters_length(&self) -> usize
        ensures { result ≡ letters_length self.now.grid.size }
    {
        self.letters_width() * (self.grid.size.lines as usize * 2)
    }
}
