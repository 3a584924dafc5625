// A scene: what a panel is to show, and the dots of it, byte by byte and row by row.
ghost use Rattle.std.specs.Prelude.{true, ◌≡◌, ◌*◌, ◌+◌, ◌≤◌, ◌<◌, ℕ, get_or, length};
ghost use Rattle.dots.specs.Font.{font};
ghost use Rattle.dots.specs.Geometry.{height, picture_length, tallest};
ghost use Rattle.dots.specs.Panel.{fits_glass};
ghost use Rattle.dots.specs.Picture.{picture_byte, cell_row, covered, dots_at, is_on, cursor_sets, painted};
ghost use Rattle.dots.specs.Picture.{pattern_row, row_of};
ghost use Rattle.dots.specs.Stretch.{stretch, stretches};

use crate::font::table_row;
use crate::geometry::{cell_at, rows_of};
use crate::panel::{Profile, place_at};
use crate::stretch::{part_at, stretch_of, stretches_of};
use controller::{Control, Counter, Record};

// A controller's record and memory, and whether a cell that blinks is lit now.
#[derive(Clone, Copy)]
pub struct Scene<'a> {
    pub rec: Record,
    pub memory: &'a [u8],
    pub lit: bool,
    pub ghost shift: { rec.shift < 80 },
    pub ghost whole: { length memory.now ≡ 144 },
}

// Whether the counter is on this display cell. Which rows and panels fit the caller has from his range, so that these facts stand
// in the clauses.
fn is_on(counter: Counter, cell: usize) -> bool
    ensures { result ≡ is_on counter cell }
{
    matches!(counter, Counter::Display(at) if at as usize == cell)
}

// Whether the cursor or the blinking sets this row of the counter's cell.
#[tactic(auto, unfolding(crate::specs::Picture::cursor_sets))]
fn cursor_sets(control: Control, lit: bool, rows: usize, row: usize) -> bool
    requires { row < tallest }
    ensures { result ≡ cursor_sets control lit rows row }
{
    (control.c && row + 1 == rows) || (control.b && lit)
}

impl Scene<'_> {
    // One row of the pattern that a code 00h to 0Fh shows.
    fn pattern_row(&self, code: u8, row: usize) -> u8
        requires { row < tallest }
        ensures { result ≡ pattern_row self.now.memory.now code row }
    {
        self.memory[80 + (code % 8) as usize * 8 + row] % 32
    }

    #[tactic(auto, unfolding(crate::specs::Picture::row_of))]
    fn row_of(&self, code: u8, row: usize) -> u8
        requires { row < tallest }
        ensures { result ≡ row_of font self.now.memory.now code row }
    {
        if code < 0x10 {
            self.pattern_row(code, row)
        } else {
            table_row(code, row)
        }
    }

    // Whether the cursor or the blinking covers this row of this cell.
    #[tactic(auto, unfolding(crate::specs::Picture::covered, crate::specs::Geometry::height))]
    fn is_covered(&self, row: usize, cell: usize) -> bool
        requires { row < height self.now.rec.function }
        ensures { result ≡ covered self.now.rec self.now.lit row cell }
    {
        let rec = self.rec;
        cursor_sets(rec.control, self.lit, rows_of(rec.function), row) && is_on(rec.counter, cell)
    }

    // One row of a display cell.
    #[tactic(auto, unfolding(crate::specs::Picture::cell_row, crate::specs::Geometry::height))]
    fn cell_row(&self, row: usize, cell: usize) -> u8
        requires { (row < height self.now.rec.function) × (cell < 80) }
        ensures { result ≡ cell_row font self.now.rec self.now.memory.now self.now.lit row cell }
    {
        if self.is_covered(row, cell) {
            0b11111
        } else {
            self.row_of(self.memory[cell], row)
        }
    }

    // The five dots at a line of the controller, a row and a position.
    #[tactic(auto, unfolding(crate::specs::Picture::dots_at, crate::specs::Picture::shown_row))]
    fn dots_at(&self, line: usize, row: usize, position: usize) -> u8
        requires { (row < height self.now.rec.function) × (position < 40) }
        ensures { result ≡ dots_at font self.now.rec self.now.memory.now self.now.lit line row position }
    {
        let rec = self.rec;
        if !rec.control.d {
            return 0;
        }
        match cell_at(rec.function.n, rec.shift as usize, line, position) {
            Some(cell) => self.cell_row(row, cell),
            None => 0,
        }
    }

    // One row of dots of a stretch: the part of this number in the picture.
    fn draw_part(&self, profile: Profile, at: usize, part: &mut [u8])
        requires { (fits_glass profile ≡ true) × (at < stretches profile * height self.now.rec.function)
            × (length part.old ≡ stretch profile) }
        ensures { (i : ℕ) → i < stretch profile → get_or part.new i 0
            ≡ picture_byte font self.now.rec self.now.memory.now self.now.lit profile (at * stretch profile + i) }
    {
        let start = part_at(profile, rows_of(self.rec.function), at);
        let place = place_at(profile, start.line, start.column);
        for (column, dots) in part.iter_mut().enumerate() {
            *dots = self.dots_at(place.line, start.row, place.position + column);
        }
    }

    // The whole picture, part after part.
    pub fn draw(&self, profile: Profile, out: &mut [u8])
        requires { (fits_glass profile ≡ true) × (picture_length self.now.rec.function profile ≤ length out.old) }
        ensures { let byte = picture_byte font self.now.rec self.now.memory.now self.now.lit profile in
            out.new ≡ painted byte 0 (picture_length self.now.rec.function profile) out.old }
    {
        let columns = stretch_of(profile);
        // Not by chunks_exact_mut: no contract of std says what a slice holds once its chunks are written.
        for at in 0..stretches_of(profile) * rows_of(self.rec.function) {
            self.draw_part(profile, at, &mut out[at * columns..(at + 1) * columns]);
        }
    }
}
