// The panels: their sizes, and where each position of their glass stands in the controller's lines. Lines and columns count
// from 0.
ghost use Rattle.std.specs.Prelude.{◌≡◌, ◌≤◌};
ghost use Rattle.dots.specs.Panel.{fits_glass, fits_plain, on_glass, place_at};
ghost use Rattle.dots.specs.Promises.{SizeOfPromise};

// A panel's size: characters to a line, and lines.
#[derive(Clone, Copy)]
pub struct Size {
    pub columns: u8,
    pub lines: u8,
}

// A panel: the plain geometry of some size, the panel of 20 x 4, the divided row of 16 x 1, or one that is not known, which
// `picture` answers 10, behind 1 and 2.
#[derive(Clone, Copy)]
pub enum Profile {
    Plain(Size),
    FourRows,
    Divided,
    Unknown,
}

// Where a position of the glass stands: the line of the controller that it belongs to, and how far in.
#[derive(Clone, Copy)]
pub struct Place {
    pub line: usize,
    pub position: usize,
}

// The size of a panel.
#[tactic(auto, unfolding(crate::specs::Panel::size_of))]
pub fn size_of(profile: Profile) -> Size
    ensures { SizeOfPromise profile result }
{
    match profile {
        Profile::Plain(size) => size,
        Profile::FourRows => Size {
            columns: 20,
            lines: 4,
        },
        Profile::Divided => Size {
            columns: 16,
            lines: 1,
        },
        Profile::Unknown => Size {
            columns: 0,
            lines: 0,
        },
    }
}

// The one place where a size is tested: columns 1 to 40, lines 1 or 2.
#[tactic(auto, unfolding(crate::specs::Panel::fits_plain))]
fn is_plain(size: Size) -> bool
    ensures { result ≡ fits_plain size }
{
    matches!(size.columns, 1..=40) && matches!(size.lines, 1..=2)
}

// Whether there is such a panel.
#[tactic(auto, unfolding(crate::specs::Panel::fits_glass))]
pub fn fits_glass(profile: Profile) -> bool
    ensures { result ≡ fits_glass profile }
{
    match profile {
        Profile::Plain(size) => is_plain(size),
        Profile::FourRows | Profile::Divided => true,
        Profile::Unknown => false,
    }
}

// Where a position of the glass stands.
#[tactic(auto, unfolding(crate::specs::Panel::place_at))]
pub fn place_at(profile: Profile, line: usize, column: usize) -> Place
    requires { (line ≤ 255) × (column ≤ 255) }
    ensures { result ≡ place_at profile line column }
{
    match profile {
        Profile::Plain(_) | Profile::Unknown => Place {
            line,
            position: column,
        },
        Profile::FourRows => Place {
            line: line % 2,
            position: line / 2 * 20 + column,
        },
        Profile::Divided => Place {
            line: column / 8,
            position: column % 8,
        },
    }
}

// Whether a position of the glass stands at this place.
#[tactic(auto, unfolding(crate::specs::Panel::on_glass))]
pub fn on_glass(profile: Profile, line: u8, position: u8) -> bool
    ensures { result ≡ on_glass profile line position }
{
    match profile {
        Profile::Plain(size) => line < size.lines && position < size.columns,
        Profile::FourRows => line < 2 && position < 40,
        Profile::Divided => line < 2 && position < 8,
        Profile::Unknown => false,
    }
}
