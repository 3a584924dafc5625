// The report: every row of an example, with what was seen after it and whether the manual prints the same.
use crate::bench::Bench;
use crate::display::{Seen, see};
use crate::row::{Row, Step};
use crate::shapes::Letters;
use crate::{document_001, document_003, document_004};
use lines::Page;
use std::fmt;
use std::fmt::Write;

// The lines so far, for which the page has room even where every row differs; the steps played, and those that differ from the
// manual. The sums wrap rather than ask that they fit.
#[derive(Drop)]
pub struct Report {
    pub page: Page<65536>,
    letters: Letters,
    steps: u64,
    differ: u64,
}

impl Report {
    pub fn new() -> Report {
        Report {
            page: Page::new(),
            letters: Letters::new(),
            steps: 0,
            differ: 0,
        }
    }

    // A row without a number prepares the panel and is no step of the manual's; it counts only where it went wrong.
    fn count(&mut self, is_numbered: bool, is_fine: bool) {
        self.steps = self.steps.wrapping_add(u64::from(is_numbered));
        self.differ = self.differ.wrapping_add(u64::from(!is_fine));
    }

    // A step is sent, looked at and told: its own fields, what was seen, and whether the manual prints it. Both end in blanks.
    fn play_step(&mut self, bench: &mut Bench, step: &Step) -> fmt::Result {
        let played = bench.play(step.action);
        let mut seen = Seen::new();
        if let Some(view) = step.view {
            see(&mut seen, &self.letters, bench, view)?;
        }
        let seen = str::from_utf8(seen.text()).unwrap_or("");
        let is_same = seen.trim_end() == step.printed.trim_end();
        self.count(step.is_numbered, played.is_ok() && is_same);
        write!(self.page, "{:<17}{seen:<64}", step.fields)?;
        match played {
            Err(_) => writeln!(self.page, " differs: refused"),
            Ok(()) if is_same => writeln!(self.page, " ok"),
            Ok(()) => writeln!(self.page, " differs\n      the manual:{:<64}", step.printed),
        }
    }

    // Every row of an example, which has a controller of its own. An empty line stands before a heading, and a note under the
    // columns of the step that it speaks of.
    fn play(&mut self, example: &str) -> fmt::Result {
        let mut bench = Bench::new();
        for row in example.lines() {
            match Row::from(row) {
                Row::Heading(text) => writeln!(self.page, "\n{text}")?,
                Row::Note(text) => writeln!(self.page, "   {text}")?,
                Row::Step(step) => self.play_step(&mut bench, &step)?,
            }
        }
        Ok(())
    }

    // Every document's examples, in their order, and what was counted.
    pub fn play_all(&mut self) -> fmt::Result {
        let first = document_001::EXAMPLES.iter();
        let third = document_003::EXAMPLES.iter();
        let fourth = document_004::EXAMPLES.iter();
        for example in first.chain(third).chain(fourth) {
            self.play(example)?;
        }
        writeln!(self.page, "\n{} steps, {} differ", self.steps, self.differ)
    }
}
