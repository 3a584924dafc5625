// Plays plans with cuts on the controller itself. For each wish of a fixed set, each starting record of another and each of four
// frequencies, the plan is stopped after any number of its transfers and then sent whole; what the controller then holds is
// compared with what demand 3 says of it. Document 01, "The plan".
#![tactic(auto)]

mod cells;
mod report;
mod runs;
mod starts;
mod tally;
mod verdict;
mod wishes;

use report::Report;
use std::process::ExitCode;
use telling::{send, status_of};

fn main(rt: HostRuntime) -> ExitCode {
    let mut report = Report::new();
    // A page takes every text, so this does not fail.
    let _ = report.play_all();
    status_of(send(&mut rt.stdout(), report.page.text()))
}
