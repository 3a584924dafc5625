// Plays the manuals' own examples on the controller itself, and compares what the glass then shows with what the manual
// prints. Each example is a text of rows (module `row`), typed in from its document; docs/VECTORS.md names the places where
// the print itself is wrong, and what decides there.
#![tactic(auto)]

mod bench;
mod display;
mod document_001;
mod document_003;
mod document_004;
mod record;
mod report;
mod row;
mod shapes;

use report::Report;
use std::process::ExitCode;
use telling::{send, status_of};

// The report is gathered and written once.
fn main(rt: HostRuntime) -> ExitCode {
    let mut report = Report::new();
    // A page takes every text, so this does not fail.
    let _ = report.play_all();
    status_of(send(&mut rt.stdout(), report.page.text()))
}
