// The program `import`: reads a capture of the logic pod from standard input and writes its session to standard output. A capture
// that is refused is told on standard error, with its number and what is at fault, and nothing is written. Request b).
#![tactic(auto)]

mod explain;

use captures::import;
use explain::tell_refusal;
use lines::first;
use std::process::ExitCode;
use telling::{Unheard, Unsent, read_input, send_or_tell, status_of, tell, tell_unread};

// The program's name, before what it tells.
const NAME: &[u8] = b"import";

// The longest capture, and one byte more, by which a longer one shows.
const LIMIT: usize = 2_097_152;

const INPUT: usize = LIMIT + 1;

// The longest session of such a capture: 4 bytes for each 3 of it, and some more (`ImportFits`).
const OUTPUT: usize = LIMIT / 3 * 4 + 16;

fn write_session(rt: HostRuntime, capture: &[u8]) -> Result<(), Unheard> {
    let mut errors = rt.stderr();
    let mut out = [0u8; OUTPUT];
    match import(capture, &mut out) {
        Ok(length) => {
            send_or_tell(&mut rt.stdout(), &mut errors, NAME, first(&out, length))?;
            Ok(())
        }
        Err(answer) => tell_refusal(&mut errors, capture, answer),
    }
}

// Reads the capture and writes its session. The run ends early where nobody reads what it writes.
fn run(rt: HostRuntime) -> Result<(), Unheard> {
    let mut errors = rt.stderr();
    let mut input = [0u8; INPUT];
    let Ok(length) = read_input(&mut rt.stdin(), &mut input) else {
        return tell_unread(&mut errors, NAME, b"Nothing was imported.");
    };
    if LIMIT < length {
        return tell(
            &mut errors,
            NAME,
            b"the capture is longer than 2,097,152 bytes, the most that is taken. Nothing was imported.",
        );
    }
    write_session(rt, first(&input, length))
}

fn main(rt: HostRuntime) -> ExitCode {
    status_of(run(rt).map_err(Unsent::from))
}
