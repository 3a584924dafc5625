// A glass in stretches: columns that follow one another in one line of the controller, so that their place is looked up once.
ghost use Rattle.std.specs.Prelude.{true, ◌≡◌, ◌<◌};
ghost use Rattle.dots.specs.Panel.{fits_glass};
ghost use Rattle.dots.specs.Stretch.{part_at, stretch, stretches};

use crate::panel::Profile;

// Where one row of dots of a stretch begins on the glass.
#[derive(Clone, Copy)]
pub struct Part {
    pub line: usize,
    pub row: usize,
    pub column: usize,
}

// The columns of a stretch.
#[tactic(auto, unfolding(crate::specs::Stretch::stretch))]
pub fn stretch_of(profile: Profile) -> usize
    ensures { result ≡ stretch profile }
{
    match profile {
        Profile::Plain(size) => size.columns as usize,
        Profile::FourRows => 20,
        Profile::Divided => 8,
        Profile::Unknown => 0,
    }
}

// The stretches of a glass.
#[tactic(auto, unfolding(crate::specs::Stretch::stretches))]
pub fn stretches_of(profile: Profile) -> usize
    ensures { result ≡ stretches profile }
{
    match profile {
        Profile::Plain(size) => size.lines as usize,
        Profile::FourRows => 4,
        Profile::Divided => 2,
        Profile::Unknown => 0,
    }
}

// Where the part of this number in a picture begins, where a line has so many rows. Stretches are whole lines, but in the divided
// row.
pub fn part_at(profile: Profile, rows: usize, at: usize) -> Part
    requires { (0 < rows) × (fits_glass profile ≡ true) }
    ensures { result ≡ part_at profile rows at }
{
    match profile {
        Profile::Divided => Part {
            line: at / 2 / rows,
            row: at / 2 % rows,
            column: at % 2 * 8,
        },
        _ => Part {
            line: at / rows,
            row: at % rows,
            column: 0,
        },
    }
}
