// What is at fault in a capture that is refused, and where.
ghost use Rattle.std.specs.Prelude.{◌≡◌, ◌&&◌};
ghost use Rattle.captures.specs.Words.{words};
ghost use Rattle.captures.specs.Falls.{blank_scan};
ghost use Rattle.captures.specs.Faults.{falls_unknown, fault_of, fault_said, is_undeclared, is_wrong, wrong_in};
ghost use Rattle.captures.specs.Faults.{unknown_from, unknown_of, unknown_told};
ghost use Rattle.captures.specs.Promises.{LacksSignalPromise, UnknownFallPromise, WrongWordPromise};
ghost use Rattle.captures.specs.Walk.{codes_in, scan_in};

use crate::changes::Capture;
use crate::definitions::Head;
use crate::falls::unknown_at;
use crate::form::{Level, Phase, change_of, stamp_of};
use crate::scan::Scan;
use crate::session::read_head;
use crate::table::blank_table;
use crate::words::words_of;

// What is wrong with a text: a word, or that the text lacks its end, a fault of its own, which callers tell in words.
#[derive(Clone, Copy, PartialEq, Eq)]
pub enum Fault {
    Unfinished,
    Misplaced,
    Twice,
    Undeclared,
}

// The first word at fault, and where it begins; where there is none, the place is behind the text (`WrongWordPromise`), so that
// this is no Option.
#[derive(Clone, Copy)]
pub struct Wrong {
    pub fault: Fault,
    pub place: usize,
}

// Whether no word can stand here any more.
fn is_wrong(phase: Phase) -> bool
    ensures { result ≡ is_wrong phase }
{
    matches!(phase, Phase::Wrong)
}

// Whether a word changes a code that no section declares.
fn is_undeclared(capture: &Capture, phase: Phase, word: &[u8]) -> bool
    ensures { result ≡ is_undeclared (words capture.now.text.now) phase word.now }
{
    match change_of(word) {
        Some(change) => phase.changes_come() && capture.is_strange(change.code),
        None => false,
    }
}

// What is wrong with a word, if anything is.
#[tactic(auto, unfolding(crate::specs::Faults::fault_of))]
fn fault_of(wrong: bool, twice: bool, undeclared: bool) -> Option<Fault>
    ensures { result ≡ fault_said (fault_of wrong twice undeclared) }
{
    if wrong {
        Some(Fault::Misplaced)
    } else if twice {
        Some(Fault::Twice)
    } else if undeclared {
        Some(Fault::Undeclared)
    } else {
        None
    }
}

// The first word at fault of a capture.
fn find_wrong(capture: &Capture) -> Wrong
    ensures { result ≡ wrong_in capture.now.text.now }
{
    let mut head = Head::new();
    // The iterator tells words alone, and two of its callers want their places.
    let mut place = 0;
    for word in words_of(capture.text) {
        let undeclared = is_undeclared(capture, head.phase, word);
        head.define(word);
        if let Some(fault) = fault_of(is_wrong(head.phase), head.twice, undeclared) {
            return Wrong { fault, place };
        }
        place += word.len() + 1;
    }
    Wrong {
        fault: Fault::Unfinished,
        place,
    }
}

// What is at fault in a capture outside the subset.
pub fn wrong_word(capture: &[u8]) -> Wrong
    ensures { WrongWordPromise capture.now result }
{
    let mut table = blank_table();
    let Head { codes, .. } = read_head(capture, &mut table);
    find_wrong(&Capture {
        text: capture,
        codes,
        table: &table,
    })
}

// Whether the needed signal of a line, 0 to 10, is not declared.
#[tactic(auto, unfolding(crate::specs::Faults::lacks_line))]
pub fn lacks_signal(capture: &[u8], line: usize) -> bool
    ensures { LacksSignalPromise capture.now line result }
{
    // For a line that there is not nothing is read.
    if 11 <= line {
        return false;
    }
    let mut table = blank_table();
    let head = read_head(capture, &mut table);
    head.codes[line].is_empty()
}

// A fall with x or z on a needed line: where its stamp stands in the text, the stamp, and the levels of the eleven lines.
#[derive(Clone, Copy)]
pub struct Unknown {
    pub place: usize,
    pub stamp: u32,
    pub levels: [Level; 11],
}

// Where a stamp ends: the fall there, if there is one with x or z on a needed line.
fn fall_unknown(ended: bool, scan: &Scan, place: usize) -> Option<Unknown>
    ensures { result
        ≡ unknown_told (unknown_of (ended && falls_unknown (scan_in scan.now)) (scan_in scan.now) place) }
{
    match scan.fall() {
        Some(stamp) if ended && unknown_at(&scan.levels) => Some(Unknown {
            place,
            stamp,
            levels: scan.levels,
        }),
        _ => None,
    }
}

// The first such fall of a capture.
fn find_unknown(capture: &Capture) -> Option<Unknown>
    ensures { result
        ≡ unknown_told (unknown_from (words capture.now.text.now) (codes_in capture.now.codes) blank_scan 0 0
        (words capture.now.text.now)) }
{
    let mut scan = Scan::new();
    let mut at = 0;
    let mut place = 0;
    for word in words_of(capture.text) {
        let stamp = stamp_of(word);
        if let Some(fall) = fall_unknown(scan.ends_at(stamp), &scan, at) {
            return Some(fall);
        }
        if scan.phase.changes_come() && stamp.is_some() {
            at = place;
        }
        scan = capture.scan_word(scan, word, stamp);
        place += word.len() + 1;
    }
    fall_unknown(true, &scan, at)
}

// Where E falls with x or z on a needed line.
pub fn unknown_fall(capture: &[u8]) -> Option<Unknown>
    ensures { UnknownFallPromise capture.now result }
{
    let mut table = blank_table();
    let Head { codes, .. } = read_head(capture, &mut table);
    find_unknown(&Capture {
        text: capture,
        codes,
        table: &table,
    })
}
