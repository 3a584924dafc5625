// The form in which every example is written down: a text of rows, one to a line. The first byte tells what a row is.
//
//     = text       a heading
//     # text       a note
//
// Any other row is a step, its fields in fixed columns:
//
//     25 D 40 C0    40 T |L               |                | cursor 1:02
//
// the manual's number, or none where the panel is only prepared; the kind, `I` an instruction write, `D` a data write, `P`
// power on, `F` the filling of the display cells, `-` nothing; the byte, or at width 4 its two halves as the bus carries
// them; the wait in microseconds; how the display is looked at; and what the manual prints. The ways of looking:
//
//     L, T     the letters of line 1, or of both lines, and where the cursor is
//     A, B     the addresses that stand at the first eight positions of line 1, or of both lines
//     1, 2     the dots of the first or the second position, row by row
//     R        the record
use controller::Kind;

// A row, by its first byte.
#[derive(Clone, Copy)]
pub enum Row<'a> {
    Heading(&'a str),
    Note(&'a str),
    Step(Step<'a>),
}

// A step: its fields up to the wait, as they are written; whether it is one of the manual's; what is done, which a slip in the
// table leaves open; how the display is looked at, if it is; and what the manual prints.
#[derive(Clone, Copy)]
pub struct Step<'a> {
    pub fields: &'a str,
    pub is_numbered: bool,
    pub action: Option<Action>,
    pub view: Option<View>,
    pub printed: &'a str,
}

// What a step does to the panel.
#[derive(Clone, Copy)]
pub enum Action {
    PowerOn,
    // A byte, or its two halves.
    Send {
        kind: Kind,
        byte: u8,
        second: Option<u8>,
        wait: u32,
    },
    Fill,
    Nothing,
}

// What is looked at, the letters or the addresses in so many lines.
#[derive(Clone, Copy)]
pub enum View {
    Letters { lines: usize },
    Addresses { lines: usize },
    First,
    Second,
    Record,
}

impl<'a> From<&'a str> for Row<'a> {
    fn from(row: &'a str) -> Row<'a> {
        match row.as_bytes() {
            [b'=', ..] => Row::Heading(row),
            [b'#', ..] => Row::Note(row),
            _ => Row::Step(Step {
                fields: row.get(..17).unwrap_or(row),
                is_numbered: !field(row, 0, 2).is_empty(),
                action: action_of(row),
                view: view_of(row),
                printed: row.get(19..).unwrap_or(""),
            }),
        }
    }
}

// A field without the blanks around it. A row may end early: past its end there are blanks.
fn field(row: &str, from: usize, end: usize) -> &str {
    row.get(from..end).unwrap_or("").trim()
}

// What the kind in a row says.
fn action_of(row: &str) -> Option<Action> {
    match field(row, 3, 4) {
        "P" => Some(Action::PowerOn),
        "I" => send_of(Kind::InstructionWrite, row),
        "D" => send_of(Kind::DataWrite, row),
        "F" => Some(Action::Fill),
        "-" => Some(Action::Nothing),
        _ => None,
    }
}

// The transfer of a row: its byte, or its first half and its second, and the microseconds since the transfer before.
fn send_of(kind: Kind, row: &str) -> Option<Action> {
    Some(Action::Send {
        kind,
        byte: u8::from_str_radix(field(row, 5, 7), 16).ok()?,
        second: u8::from_str_radix(field(row, 8, 10), 16).ok(),
        wait: field(row, 11, 16).parse().ok()?,
    })
}

// The way of looking, by its letter.
fn view_of(row: &str) -> Option<View> {
    match field(row, 17, 18) {
        "L" => Some(View::Letters { lines: 1 }),
        "T" => Some(View::Letters { lines: 2 }),
        "A" => Some(View::Addresses { lines: 1 }),
        "B" => Some(View::Addresses { lines: 2 }),
        "1" => Some(View::First),
        "2" => Some(View::Second),
        "R" => Some(View::Record),
        _ => None,
    }
}
