// The forms of a drawing, byte by byte, and the public call with its refusals.
ghost use Rattle.std.specs.Prelude.{◌≡◌, ◌-◌, ◌/◌, ◌%◌, ◌≤◌, ◌<◌, length};
ghost use Rattle.dots.specs.Picture.{painted};
ghost use Rattle.drawing.specs.Drawing.{bitmap_byte, bitmap_length, DrawnTaken, drawn_byte, cells_byte, frame_length};
ghost use Rattle.drawing.specs.Drawing.{blocks_byte, letters_byte, frame_width, head_byte, length_of, listing_byte, frame_byte};
ghost use Rattle.drawing.specs.Promises.{DrawPromise};
ghost use Rattle.drawing.specs.State.{state_byte};

use crate::glass::Glass;
use crate::grid::{Grid, byte_in};
use crate::listing::legend_at;
use crate::state::state_byte;
use controller::{Answer, Record};
use dots::{PICTURE_ROOM, Profile, picture, rows_of, size_of};

// The length of the bitmap's head.
const HEAD: usize = 13;

// The length of the state's lines.
const STATE: usize = 136;

// A line of the listing, and the nine of them.
const LISTING_WIDTH: usize = 95;

const LISTING: usize = 855;

// The length of what the marks mean.
const LEGEND: usize = 45;

// How a panel is drawn: its dots in a frame or as block characters, what it reads as letters, its dots as a bitmap, or its cells
// listed.
#[derive(Clone, Copy)]
pub enum Form {
    Dots,
    Blocks,
    Letters,
    Bitmap,
    Cells,
}

impl Glass<'_> {
    // A line of the frame: the grid's columns, one more for its edge, and the end of the line.
    #[tactic(auto, unfolding(crate::specs::Drawing::frame_width))]
    fn frame_width(&self) -> usize
        ensures value { result ≡ frame_width self.now.grid }
        ensures most { result ≤ 242 }
    {
        self.last_x() + 2
    }

    #[tactic(auto, unfolding(crate::specs::Drawing::frame_length))]
    fn frame_length(&self) -> usize
        ensures { result ≡ frame_length self.now.grid }
    {
        self.frame_width() * (self.last_y() + 1)
    }

    #[tactic(auto, unfolding(crate::specs::Drawing::bitmap_length))]
    fn bitmap_length(&self) -> usize
        ensures { result ≡ bitmap_length self.now.grid }
    {
        HEAD + (self.last_x() + 1) * ((self.last_y() + 1) * 8)
    }

    fn length_of(&self, form: Form) -> usize
        ensures { result ≡ length_of form self.now.grid }
    {
        match form {
            Form::Dots => self.frame_length() + STATE,
            Form::Blocks => self.blocks_length() + STATE,
            Form::Letters => self.letters_length() + STATE,
            Form::Bitmap => self.bitmap_length(),
            Form::Cells => LEGEND + (LISTING + STATE),
        }
    }

    // The byte at a place of a text, from its column and its row, and behind the text a byte of the state's lines.
    fn text_byte<F: Fn(usize, usize) -> u8>(
        &self,
        width: usize,
        length: usize,
        place: usize,
        at: F,
    ) -> u8
        requires some { 0 < width }
        requires pre { place < length → F.pre at (place % width) (place / width) }
        ensures text { place < length → F.post at (place % width) (place / width) result }
        ensures state { length ≤ place → result ≡ state_byte self.now.rec (place - length) }
    {
        if place < length {
            at(place % width, place / width)
        } else {
            state_byte(self.rec, place - length)
        }
    }

    // The frame line by line, then the state.
    #[tactic(auto, unfolding(crate::specs::Drawing::frame_byte))]
    fn frame_byte(&self, place: usize) -> u8
        ensures { result ≡ frame_byte self.now.dots.now self.now.rec self.now.grid place }
    {
        self.text_byte(
            self.frame_width(),
            self.frame_length(),
            place,
            |x, y| self.frame_at(x, y),
        )
    }

    // The block characters row by row, then the state.
    #[tactic(auto, unfolding(crate::specs::Drawing::blocks_byte))]
    fn blocks_byte(&self, place: usize) -> u8
        ensures { result ≡ blocks_byte self.now.dots.now self.now.rec self.now.grid place }
    {
        self.text_byte(
            self.blocks_width(),
            self.blocks_length(),
            place,
            |at, y| self.blocks_at(at, y),
        )
    }

    // The letters row by row, then the state.
    #[tactic(auto, unfolding(crate::specs::Drawing::letters_byte))]
    fn letters_byte(&self, place: usize) -> u8
        ensures { result ≡ letters_byte self.now.memory.now self.now.rec self.now.grid place }
    {
        self.text_byte(
            self.letters_width(),
            self.letters_length(),
            place,
            |x, y| self.letters_at(x, y),
        )
    }

    fn head_byte(&self, place: usize) -> u8
        ensures { result ≡ head_byte self.now.grid place }
    {
        byte_in(&self.bitmap_head(), place)
    }

    // The head, then the pixels row by row.
    #[tactic(auto, unfolding(crate::specs::Drawing::bitmap_byte))]
    fn bitmap_byte(&self, place: usize) -> u8
        requires { place < bitmap_length self.now.grid }
        ensures { result ≡ bitmap_byte self.now.dots.now self.now.grid place }
    {
        if place < HEAD {
            self.head_byte(place)
        } else {
            let width = self.last_x() + 1;
            self.pixels_at((place - HEAD) % width, (place - HEAD) / width)
        }
    }

    // The cells line by line, then the state.
    #[tactic(auto, unfolding(crate::specs::Drawing::listing_byte))]
    fn listing_byte(&self, place: usize) -> u8
        ensures { result ≡ listing_byte self.now.memory.now self.now.rec self.now.grid.profile place }
    {
        self.text_byte(
            LISTING_WIDTH,
            LISTING,
            place,
            |x, line| self.listing_at(x, line),
        )
    }

    // The legend, then the listing.
    #[tactic(auto, unfolding(crate::specs::Drawing::cells_byte))]
    fn cells_byte(&self, place: usize) -> u8
        ensures { result ≡ cells_byte self.now.memory.now self.now.rec self.now.grid.profile place }
    {
        if place < LEGEND {
            legend_at(place)
        } else {
            self.listing_byte(place - LEGEND)
        }
    }

    fn drawn_byte(&self, form: Form, place: usize) -> u8
        requires { place < length_of form self.now.grid }
        ensures { result ≡ drawn_byte form self.now.dots.now self.now.memory.now self.now.rec self.now.grid place }
    {
        match form {
            Form::Dots => self.frame_byte(place),
            Form::Blocks => self.blocks_byte(place),
            Form::Letters => self.letters_byte(place),
            Form::Bitmap => self.bitmap_byte(place),
            Form::Cells => self.cells_byte(place),
        }
    }

    // The whole drawing, byte after byte.
    fn fill(&self, form: Form, out: &mut [u8])
        requires { length out.old ≡ length_of form self.now.grid }
        ensures { let byte = drawn_byte form self.now.dots.now self.now.memory.now self.now.rec self.now.grid in
            out.new ≡ painted byte 0 (length_of form self.now.grid) out.old }
    {
        for (place, byte) in out.iter_mut().enumerate() {
            *byte = self.drawn_byte(form, place);
        }
    }

    // Draws a picture that was taken, where the output has room for it.
    fn draw(&self, form: Form, out: &mut [u8]) -> Result<usize, Answer>
        ensures { DrawnTaken form self.now.dots.now self.now.memory.now self.now.rec self.now.grid out.old result out.new }
    {
        let length = self.length_of(form);
        if out.len() < length {
            return Err(Answer::OutputShort);
        }
        self.fill(form, &mut out[..length]);
        Ok(length)
    }
}

// Draws what a panel shows into the first bytes of the output, or refuses and leaves the output as it is.
pub fn draw(
    form: Form,
    rec: Record,
    memory: &[u8],
    profile: Profile,
    lit: bool,
    out: &mut [u8],
) -> Result<usize, Answer>
    ensures { DrawPromise form rec memory.now profile lit out.old result out.new }
{
    let mut dots = [0u8; PICTURE_ROOM];
    picture(rec, memory, profile, lit, &mut dots)?;
    let grid = Grid {
        profile,
        size: size_of(profile),
        rows: rows_of(rec.function),
    };
    let glass = Glass {
        grid,
        dots: &dots,
        rec,
        memory,
    };
    glass.draw(form, out)
}
