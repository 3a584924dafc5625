// Reads a picture back: the dots of each position, and which letter they are. A letter is known by its dots alone, by comparing
// them with pictures of one letter each.
use crate::bench::Bench;
use controller::{Control, Frequency, Record, after_reset};
use dots::{Profile, Size, picture};

// The eight rows of a position, from the top.
pub type Shape = [u8; 8];

// The letters of the codes 20h to 7Fh.
#[derive(Drop)]
pub struct Letters {
    shapes: [Shape; 96],
}

impl Letters {
    pub fn new() -> Letters {
        let mut shapes = [[0; 8]; 96];
        for (shape, code) in shapes.iter_mut().zip(0x20..0x80u8) {
            *shape = shape_of(code);
        }
        Letters { shapes }
    }

    // The code of the letter that a position shows. The cursor is left out.
    pub fn code_of(&self, shape: Shape) -> Option<u8> {
        let mut letter = shape;
        if has_cursor(shape) {
            letter[7] = 0;
        }
        let (code, _) = (0x20..0x80u8)
            .zip(&self.shapes)
            .find(|(_, known)| **known == letter)?;
        Some(code)
    }

    // The codes of a glass, position by position.
    pub fn codes_of(&self, glass: [Shape; 32]) -> [Option<u8>; 32] {
        glass.map(|shape| self.code_of(shape))
    }
}

// The cursor is all five dots of the eighth row, where no letter has a dot.
fn has_cursor(shape: Shape) -> bool {
    shape[7] == 0b11111
}

// The position of the cursor, if there is one.
pub fn cursor_on(glass: &[Shape; 32]) -> Option<usize> {
    glass.iter().position(|shape| has_cursor(*shape))
}

// The shape of one code, from a picture of one column and one line: display cell 0 at the first position, without a cursor.
fn shape_of(code: u8) -> Shape {
    let rec = after_reset(Frequency::OLDER);
    let shown = Record {
        control: Control {
            d: true,
            ..rec.control
        },
        ..rec
    };
    let panel = Profile::Plain(Size {
        columns: 1,
        lines: 1,
    });
    let mut shape = [0; 8];
    // A sound record and a whole memory are not refused; a picture that was would show no dots.
    let _ = picture(shown, &[code; 144], panel, false, &mut shape);
    shape
}

// What stands on the glass, which has two lines of 16 columns; a smaller one is its upper left part.
pub fn glass_of(bench: &Bench) -> [Shape; 32] {
    let panel = Profile::Plain(Size {
        columns: 16,
        lines: 2,
    });
    let mut bytes = [0; 256];
    // As above.
    let _ = picture(bench.rec, &bench.memory, panel, false, &mut bytes);
    let mut glass = [[0; 8]; 32];
    for (at, byte) in bytes.iter().enumerate() {
        let line = at / 128;
        let row = at / 16 % 8;
        glass[line * 16 + at % 16][row] = *byte;
    }
    glass
}
