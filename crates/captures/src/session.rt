// A capture as a session's text: read once to judge and measure it, and once more to write.
ghost use Rattle.std.specs.Prelude.{◌≡◌, not, ◌&&◌, []};
ghost use Rattle.captures.specs.Words.{words};
ghost use Rattle.captures.specs.Form.{is_whole};
ghost use Rattle.captures.specs.Definitions.{lacks_code};
ghost use Rattle.captures.specs.Import.{judged};
ghost use Rattle.captures.specs.Promises.{ImportPromise};
ghost use Rattle.captures.specs.Table.{Tabled};
ghost use Rattle.captures.specs.Walk.{HeadRead, Walked, codes_in, scan_in, tally_in, verdict_of};

use crate::changes::Capture;
use crate::definitions::{Codes, Head};
use crate::falls::{Tally, tell_end};
use crate::form::{Phase, stamp_of};
use crate::scan::Scan;
use crate::table::{Table, blank_table, note, serve_lines};
use crate::words::words_of;
use controller::Answer;

// A capture, all of it read: what was seen last, and what was counted.
#[derive(Clone, Copy)]
pub struct Ended {
    pub scan: Scan,
    pub tally: Tally,
}

// Reads a capture and tells its falls: what fits of their lines is put into the buffer.
fn walk(capture: &Capture, out: &mut [u8]) -> Ended
    ensures { Walked capture.now.text.now (codes_in capture.now.codes) out.old
        (scan_in result.scan) (tally_in result.tally) out.new }
{
    let mut scan = Scan::new();
    let mut tally = Tally::new();
    for word in words_of(capture.text) {
        if capture.change_short(&mut scan, word) {
            continue;
        }
        let stamp = stamp_of(word);
        tally = tell_end(scan.ends_at(stamp), &scan, tally, out);
        scan = capture.scan_word(scan, word, stamp);
    }
    tally = tell_end(true, &scan, tally, out);
    Ended { scan, tally }
}

// Reads the definitions of a capture, up to their end, and notes the codes that they declare. What the table says of the text
// stands in the clauses here: `Capture` keeps it once both are whole.
fn read_sections<'a>(text: &'a [u8], table: &mut Table) -> Head<'a>
    requires { Tabled table.old (words text.now) [] 0 }
    ensures { HeadRead text.now result × Tabled table.new (words text.now) [] 0 }
{
    let mut head = Head::new();
    for word in words_of(text) {
        if head.phase.changes_come() {
            break;
        }
        note(head.phase, word, table);
        head.define(word);
    }
    head
}

// Reads the definitions of a capture, and notes the codes that they declare and the lines that these serve.
pub fn read_head<'a>(text: &'a [u8], table: &mut Table) -> Head<'a>
    requires { Tabled table.old (words text.now) [] 0 }
    ensures { HeadRead text.now result × Tabled table.new (words text.now) (codes_in result.codes) 11 }
{
    let head = read_sections(text, table);
    serve_lines(text, &head.codes, table);
    head
}

// Whether a needed signal has no code.
fn lacks_code(codes: &Codes) -> bool
    ensures { result ≡ lacks_code 11 (codes_in codes.now) }
{
    codes.iter().any(|code| code.is_empty())
}

// Whether the text is in the subset.
fn is_inside(phase: Phase, twice: bool, strange: bool) -> bool
    ensures { result ≡ is_whole phase && (not twice && not strange) }
{
    phase.is_whole() && !twice && !strange
}

// The refusals in their order, each over the whole text.
#[tactic(auto, unfolding(crate::specs::Import::judged))]
fn judge(inside: bool, missing: bool, unknown: bool) -> Result<(), Answer>
    ensures { result ≡ verdict_of (judged inside missing unknown) }
{
    if !inside {
        Err(Answer::OutsideSubset)
    } else if missing {
        Err(Answer::SignalMissing)
    } else if unknown {
        Err(Answer::LevelUnknown)
    } else {
        Ok(())
    }
}

// The session's text of a capture: its length, or the refusal.
pub fn import(capture: &[u8], out: &mut [u8]) -> Result<usize, Answer>
    ensures { ImportPromise capture.now out.old result out.new }
{
    let mut table = blank_table();
    let Head { codes, twice, .. } = read_head(capture, &mut table);
    let capture = Capture {
        text: capture,
        codes,
        table: &table,
    };
    let Ended { scan, tally } = walk(&capture, &mut []);
    let inside = is_inside(scan.phase, twice, scan.strange);
    judge(inside, lacks_code(&codes), tally.unknown)?;
    if out.len() < tally.length {
        return Err(Answer::OutputShort);
    }
    walk(&capture, out);
    Ok(tally.length)
}
