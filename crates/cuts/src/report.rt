// The report, and the runs that it tells of.
use crate::runs::{Run, lay_out, play_run};
use crate::starts::starts;
use crate::tally::Tally;
use crate::verdict::judge;
use crate::wishes::{CASES, Case};
use controller::Frequency;
use lines::Page;
use std::fmt;
use std::fmt::Write;

const FREQUENCIES: [Frequency; 4] = [
    Frequency::LOWEST,
    Frequency::OLDER,
    Frequency::NEWER,
    Frequency::HIGHEST,
];

// The lines so far, gathered in a page, which holds all that there can be; and what was counted.
#[derive(Drop)]
pub struct Report {
    pub page: Page<2048>,
    tally: Tally,
}

impl Report {
    pub fn new() -> Report {
        Report {
            page: Page::new(),
            tally: Tally::default(),
        }
    }

    // Plays a run and counts it. A wrong one is named, if it is one of the first ten.
    fn play_run(&mut self, run: &Run) -> fmt::Result {
        let ended = play_run(run);
        let judged = judge(run, &ended);
        let wrong = self.tally.wrong;
        self.tally.add(ended.sent, judged.is_ok());
        match judged {
            Err(fault) if wrong < 10 => writeln!(self.page, "wrong: {run}  {fault}"),
            _ => Ok(()),
        }
    }

    // Every cut of a plan from one start, before the first transfer, after each, and after the last; and one run that is cut
    // twice.
    fn play_cuts(&mut self, whole: &Run) -> fmt::Result {
        let count = whole.plan.len();
        for first in 0..=count {
            self.play_run(&Run { first, ..*whole })?;
        }
        self.play_run(&Run {
            first: count / 2,
            second: count / 3,
            ..*whole
        })
    }

    // The plan of one wish for this frequency, from every start at it: how many records it has.
    fn play_plan(
        &mut self,
        number: usize,
        case: &Case,
        frequency: Frequency,
    ) -> Result<usize, fmt::Error> {
        let wish = case.wish(frequency);
        let mut room = [0; 2808];
        let plan = lay_out(wish, case.named, &mut room);
        for (start_number, start) in starts(frequency).iter().enumerate() {
            self.play_cuts(&Run {
                wish_number: number,
                wish,
                named: case.named,
                plan,
                start_number,
                start: *start,
                first: 0,
                second: 0,
            })?;
        }
        Ok(plan.len())
    }

    // One wish at each frequency, and its line. Its plan has as many records at every frequency.
    fn play_wish(&mut self, number: usize, case: &Case) -> fmt::Result {
        let before = self.tally;
        let mut records = 0;
        for frequency in FREQUENCIES {
            records = self.play_plan(number, case, frequency)?;
        }
        let Tally {
            runs,
            transfers,
            ..
        } = self.tally.since(before);
        writeln!(
            self.page,
            "wish {number}  records {records}  runs {runs}  transfers {transfers}"
        )
    }

    // Every line: the frequencies that are played, each wish in turn, and what was counted.
    pub fn play_all(&mut self) -> fmt::Result {
        let [lowest, older, newer, highest] = FREQUENCIES.map(|frequency| frequency.khz);
        writeln!(self.page, "kHz {lowest} {older} {newer} {highest}")?;
        for (number, case) in CASES.iter().enumerate() {
            self.play_wish(number, case)?;
        }
        let Tally {
            runs,
            transfers,
            wrong,
        } = self.tally;
        writeln!(
            self.page,
            "runs {runs}  transfers {transfers}  wrong {wrong}"
        )
    }
}
