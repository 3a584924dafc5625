// A table over the codes of one and two characters: what a change of each does to the lines. So a change of such a code is not
// looked up in the definitions, and its code is not compared with those of the lines.
ghost use Rattle.std.specs.Prelude.{◌≡◌, ℕ, ◌<◌, List, [], MatchOption, slice_set};
ghost use Rattle.captures.specs.Words.{Word, words};
ghost use Rattle.captures.specs.Walk.{codes_in};
ghost use Rattle.captures.specs.Table.{IsEntry, Tabled, entry_of, noted, place_of, rank_of, short_codes, with_line};

use crate::definitions::Codes;
use crate::form::Phase;

// How many codes have one or two characters, each 21h to 7Eh.
const SHORT_CODES: usize = 94 + 94 * 94;

// A byte for each short code: the one line that it serves, or one of the three below. The definitions of the table are over these
// numbers (`Tabled`), and an Entry would take two bytes and more.
pub type Table = [u8; SHORT_CODES];

// The code is declared and serves no line.
const SPARE: u8 = 11;

// Nothing is known of the code.
const UNKNOWN: u8 = 12;

// The code serves several lines.
const SEVERAL: u8 = 13;

// What the table has of a code.
#[derive(Clone, Copy, PartialEq, Eq)]
pub enum Entry {
    Line(usize),
    Spare,
    Unknown,
    Several,
}

// A table that knows no code.
pub fn blank_table() -> Table
    ensures { (all codes : List Word) → Tabled result all codes 0 }
{
    [UNKNOWN; SHORT_CODES]
}

// Where a character stands among 21h to 7Eh, from 0.
#[tactic(auto, unfolding(crate::specs::Table::rank_of))]
fn rank(byte: u8) -> Option<usize>
    ensures { MatchOption result (rank_of byte ≡ 94) (λ rank. (rank ≡ rank_of byte) × (rank < 94)) }
{
    if byte.is_ascii_graphic() {
        Some((byte - b'!') as usize)
    } else {
        None
    }
}

// The place of a short code in the table.
#[tactic(auto, unfolding(crate::specs::Table::place_of, crate::specs::Table::place_of_one, crate::specs::Table::place_of_two))]
fn place_of(code: &[u8]) -> Option<usize>
    ensures { MatchOption result (place_of code.now ≡ short_codes)
        (λ place. (place ≡ place_of code.now) × (place < short_codes)) }
{
    match code {
        [first] => rank(*first),
        [first, second] => Some(94 + rank(*first)? * 94 + rank(*second)?),
        _ => None,
    }
}

// What the table has of a code.
pub fn entry_of(table: &Table, code: &[u8]) -> Entry
    ensures { IsEntry (entry_of table.now code.now) result }
{
    let Some(place) = place_of(code) else {
        return Entry::Unknown;
    };
    match table[place] {
        SPARE => Entry::Spare,
        UNKNOWN => Entry::Unknown,
        line if line < SPARE => Entry::Line(line as usize),
        _ => Entry::Several,
    }
}

// An entry for a code; for any but a short one there is none.
fn store(table: &mut Table, code: &[u8], entry: u8)
    ensures { table.new ≡ slice_set table.old (place_of code.now) entry }
{
    if let Some(place) = place_of(code) {
        table[place] = entry;
    }
}

// A code that is declared is noted.
#[tactic(auto, unfolding(crate::specs::Table::noted))]
pub fn note(phase: Phase, word: &[u8], table: &mut Table)
    ensures { table.new ≡ noted table.old phase word.now }
{
    if phase.code_comes() {
        store(table, word, SPARE);
    }
}

// An entry with a line more that the code serves.
#[tactic(auto, unfolding(crate::specs::Table::with_line))]
fn with_line(entry: Entry, line: u8) -> u8
    ensures { (number : ℕ) → IsEntry number entry → result ≡ with_line number line }
{
    match entry {
        Entry::Unknown => UNKNOWN,
        Entry::Spare => line,
        Entry::Line(_) | Entry::Several => SEVERAL,
    }
}

// The table with a line more that a code serves.
fn serve(table: &mut Table, code: &[u8], line: u8)
    ensures { table.new ≡ slice_set table.old (place_of code.now)
        (with_line (entry_of table.old code.now) line) }
{
    let entry = with_line(entry_of(table, code), line);
    store(table, code, entry);
}

// The table with the codes of the eleven lines.
pub fn serve_lines(text: &[u8], codes: &Codes, table: &mut Table)
    requires { Tabled table.old (words text.now) [] 0 }
    ensures { Tabled table.new (words text.now) (codes_in codes.now) 11 }
{
    for (line, code) in codes.iter().enumerate() {
        serve(table, code, line as u8);
    }
}
