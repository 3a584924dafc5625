// The session program: reads a session from standard input, plays it at the frequency that is asked for, and writes its report to
// standard output. What ended or spoilt the run is told on standard error. Document 01, "Session lines".
#![tactic(auto)]

mod options;

ghost use Rattle.std.specs.Prelude.{◌+◌, ◌*◌, ◌≤◌, IsOk, length};

use controller::{Answer, Frequency};
use lines::first;
use options::asked_frequency;
use player::{play, play_through};
use std::process::ExitCode;
use telling::{
    INPUT, LIMIT, Unheard, Unsent, read_input, send_or_tell, status_of, tell, tell_bad_line,
    tell_too_long, tell_unread,
};

// The program's name, before what it tells.
const NAME: &[u8] = b"session";

// What the report of the longest session wants: six bytes for each byte of it, and 62 more.
const OUTPUT: usize = 6 * LIMIT + 62;

// The report, into a buffer that always serves.
fn write_report(text: &[u8], frequency: Frequency, out: &mut [u8]) -> Result<usize, Answer>
    requires { 6 * length text.now + 62 ≤ length out.old }
    ensures { IsOk result }
{
    play(text, frequency, out)
}

// Whether a report ends with the row of a bad line: its answer alone has two digits, so that six bytes before the row's last tab
// stands the tab before the answer.
fn ends_badly(report: &[u8]) -> bool {
    match report.iter().rposition(|&byte| byte == b'\t') {
        Some(last) if 6 <= last => report[last - 6] == b'\t',
        _ => false,
    }
}

// Writes the report, and tells of the bad line that ended the session.
fn report(rt: HostRuntime, text: &[u8], frequency: Frequency) -> Result<(), Unheard>
    requires { length text.now ≤ 65536 }
{
    let mut out = [0u8; OUTPUT];
    let length = write_report(text, frequency, &mut out).unwrap();
    let report = first(&out, length);
    send_or_tell(&mut rt.stdout(), &mut rt.stderr(), NAME, report)?;
    if !ends_badly(report) {
        return Ok(());
    }
    let standing = play_through(text, frequency, u64::MAX);
    tell_bad_line(&mut rt.stderr(), NAME, standing.number, text, standing.from)
}

// Reads the session and plays it. The run ends early where nobody reads what it writes.
fn run(rt: HostRuntime) -> Result<(), Unheard> {
    let mut errors = rt.stderr();
    let Some(frequency) = asked_frequency(&rt) else {
        return tell(
            &mut errors,
            NAME,
            b"these words cannot be followed. Allowed is --khz N, the oscillator's frequency, 190 to 350; without it 250.",
        );
    };
    let mut input = [0u8; INPUT];
    let Ok(length) = read_input(&mut rt.stdin(), &mut input) else {
        return tell_unread(&mut errors, NAME, b"Nothing was played.");
    };
    if LIMIT < length {
        send_or_tell(&mut rt.stdout(), &mut errors, NAME, b"too long\n")?;
        return tell_too_long(&mut errors, NAME, b"Nothing was played.");
    }
    report(rt, &input[..length], frequency)
}

fn main(rt: HostRuntime) -> ExitCode {
    status_of(run(rt).map_err(Unsent::from))
}
