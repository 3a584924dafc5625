// A capture whose definitions are read, and what a word more of it does to the lines.
ghost use Rattle.std.specs.Prelude.{◌≡◌, false, nat_lt, not, ◌&&◌, ◌||◌};
ghost use Rattle.std.specs.Bool.{MatchBool};
ghost use Rattle.captures.specs.Words.{words};
ghost use Rattle.captures.specs.Form.{number_of_level, numbers_of, past, stamp_said};
ghost use Rattle.captures.specs.Definitions.{declares};
ghost use Rattle.captures.specs.Falls.{altered, changed, ends, in_phase, scanned};
ghost use Rattle.captures.specs.Walk.{codes_in, scan_in};
ghost use Rattle.captures.specs.Table.{Tabled, line_set};
ghost use Rattle.captures.specs.declared.form.Phase.TheVariants as Phase;

use crate::definitions::Codes;
use crate::form::{Change, Level, Phase, change_of, pass, pass_stamp};
use crate::scan::Scan;
use crate::table::{Entry, Table, entry_of};
use crate::words::words_of;

// A capture's text, the codes of the eleven lines, and what is known of its short codes.
#[derive(Clone, Copy)]
pub struct Capture<'a, 't> {
    pub text: &'a [u8],
    pub codes: Codes<'a>,
    pub table: &'t Table,
    ghost known: { Tabled table.now (words text.now) (codes_in codes) 11 },
}

// Every line that has this code gets the level. By its number, since a proof knows nothing of what `iter_mut().zip` wrote where.
fn set_levels(codes: &Codes, change: Change, levels: &mut [Level; 11])
    ensures { numbers_of levels.new
        ≡ changed 11 (codes_in codes.now) change.entry.code.now (number_of_level change.entry.level) (numbers_of levels.old) }
{
    for (line, own) in codes.iter().enumerate() {
        if *own == change.code {
            levels[line] = change.level;
        }
    }
}

// Whether some section of the text declares the code; what stands behind the definitions is not read.
fn is_declared(text: &[u8], code: &[u8]) -> bool
    ensures { result ≡ declares (Phase.Section false) (words text.now) code.now }
{
    let mut phase = Phase::Section(false);
    for word in words_of(text) {
        if phase.changes_come() {
            return false;
        }
        if phase.code_comes() && word == code {
            return true;
        }
        phase = pass(phase, word);
    }
    false
}

impl<'a, 't> Capture<'a, 't> {
    // Whether no section declares a code: looked up in the text where the table does not know it.
    pub fn is_strange(&self, code: &[u8]) -> bool
        ensures { result ≡ not (declares (Phase.Section false) (words self.now.text.now) code.now) }
    {
        entry_of(self.table, code) == Entry::Unknown && !is_declared(self.text, code)
    }

    // After a change: a code that is not declared is noted.
    fn alter(&self, scan: Scan, change: Change) -> Scan
        ensures { scan_in result
            ≡ altered (words self.now.text.now) (codes_in self.now.codes) (scan_in scan) change.entry.code.now
            (number_of_level change.entry.level) }
    {
        let mut levels = scan.levels;
        set_levels(&self.codes, change, &mut levels);
        Scan {
            levels,
            strange: scan.strange || self.is_strange(change.code),
            ..scan
        }
    }

    // Whether the table tells what a word does: a change of a short code that serves one line or none, as most words are. Then it
    // is done, in place, so that a word costs one level and no copy of the scan; else nothing is.
    pub fn change_short(&self, scan: &mut Scan, word: &[u8]) -> bool
        ensures { (result ≡ nat_lt (line_set self.now.table.now scan.old.phase word.now) 12)
            × MatchBool result
            ((scan_in scan.new ≡ scanned (words self.now.text.now) (codes_in self.now.codes) (scan_in scan.old) word.now)
            × (ends (scan_in scan.old) word.now ≡ false))
            (scan.new ≡ scan.old) }
    {
        if !scan.phase.changes_come() {
            return false;
        }
        let Some(change) = change_of(word) else {
            return false;
        };
        match entry_of(self.table, change.code) {
            Entry::Line(line) => {
                scan.levels[line] = change.level;
                true
            }
            Entry::Spare => true,
            Entry::Unknown | Entry::Several => false,
        }
    }

    // The capture with a word more, whose stamp is known.
    pub fn scan_word(&self, scan: Scan, word: &[u8], stamp: Option<u32>) -> Scan
        requires { stamp ≡ stamp_said word.now }
        ensures { scan_in result
            ≡ scanned (words self.now.text.now) (codes_in self.now.codes) (scan_in scan) word.now }
    {
        let moved = Scan {
            phase: pass_stamp(scan.phase, word, stamp),
            ..scan
        };
        if !scan.phase.changes_come() {
            moved
        } else if let Some(number) = stamp {
            moved.at_stamp(number)
        } else if let Some(change) = change_of(word) {
            self.alter(moved, change)
        } else {
            moved
        }
    }
}
