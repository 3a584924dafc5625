// The capture program: reads a session from standard input and writes it as a capture to standard output, to be looked at in a
// wave viewer. What ended or spoilt the run, and pulses that run into each other, are told on standard error. Request b).
#![tactic(auto)]

ghost use Rattle.std.specs.Prelude.{◌≡◌, ◌+◌, ◌*◌, ◌<◌, ◌≤◌, IfSome, length};
ghost use Rattle.lines.specs.Session.{session_of};
ghost use Rattle.lines.specs.Writing.{answer_in};

use captures::capture;
use controller::Answer;
use lines::{first, read_line};
use std::io::Write;
use std::process::ExitCode;
use telling::{
    INPUT, LIMIT, Unheard, Unsent, read_input, send_or_tell, status_of, tell_bad_line,
    tell_too_long, tell_unread, tell_words,
};

// The program's name, before what it tells.
const NAME: &[u8] = b"capture";

// What the capture of the longest session wants: nine bytes for each byte of it, and 291 more.
const OUTPUT: usize = 9 * LIMIT + 291;

// The pulses that run into the one before them, since their lines, but the first of a session, have a wait below 2: how many
// there are, and the first one's line and wait.
#[derive(Clone, Copy)]
pub struct Close {
    pub pulses: u64,
    pub line: u64,
    pub wait: u32,
}

// What is seen of a session's lines: the number of the next one, at the end that of a bad line, and where that begins.
#[derive(Clone, Copy)]
pub struct Seen {
    pub number: u64,
    pub from: usize,
    pub close: Option<Close>,
}

// With one line more.
fn counted(close: Option<Close>, line: u64, wait: u32) -> Option<Close>
    requires { (0 < line) × IfSome close (λ c. c.pulses < line) }
    ensures { IfSome result (λ c. c.pulses < line + 1) }
{
    if line == 1 || 1 < wait {
        return close;
    }
    match close {
        None => Some(Close {
            pulses: 1,
            line,
            wait,
        }),
        Some(close) => Some(Close {
            pulses: close.pulses + 1,
            ..close
        }),
    }
}

// Looks at the lines of a session up to its end or its bad line.
fn look(text: &[u8]) -> Seen {
    let mut number = 1;
    let mut from = 0;
    let mut close = None;
    // No index is counted, but the line's number: where the next line begins is known once this one is read.
    while let Ok(line) = read_line(&text[from..]) {
        close = counted(close, number, line.sent.wait);
        number += 1;
        from += line.length;
    }
    Seen {
        number,
        from,
        close,
    }
}

// The pulses that run into the one before them: the first one's line and wait, and how many there are.
fn tell_close<W: Write>(errors: &mut W, close: Close) -> Result<(), Unheard> {
    tell_words(
        errors,
        NAME,
        format_args!(
            "line {} has the wait {}, and a pulse takes 2 microseconds: in the capture it runs into the pulse before it. \
            Lines that do so: {}.",
            close.line, close.wait, close.pulses,
        ),
    )
}

// The capture, into a buffer that always serves: it is refused for a bad line alone.
fn write_capture(text: &[u8], out: &mut [u8]) -> Result<usize, Answer>
    requires { 9 * length text.now + 291 ≤ length out.old }
    ensures { answer_in result ≡ (session_of text.now).end }
{
    capture(text, out)
}

fn show(rt: HostRuntime, text: &[u8]) -> Result<(), Unheard>
    requires { length text.now ≤ 65536 }
{
    let mut errors = rt.stderr();
    let mut out = [0u8; OUTPUT];
    let seen = look(text);
    let Ok(length) = write_capture(text, &mut out) else {
        return tell_bad_line(&mut errors, NAME, seen.number, text, seen.from);
    };
    send_or_tell(&mut rt.stdout(), &mut errors, NAME, first(&out, length))?;
    match seen.close {
        Some(close) => tell_close(&mut errors, close),
        None => Ok(()),
    }
}

// Reads the session and writes its capture. The run ends early where nobody reads what it writes.
fn run(rt: HostRuntime) -> Result<(), Unheard> {
    let mut errors = rt.stderr();
    let mut input = [0u8; INPUT];
    let Ok(length) = read_input(&mut rt.stdin(), &mut input) else {
        return tell_unread(&mut errors, NAME, b"Nothing was written.");
    };
    if LIMIT < length {
        return tell_too_long(&mut errors, NAME, b"Nothing was written.");
    }
    show(rt, &input[..length])
}

fn main(rt: HostRuntime) -> ExitCode {
    status_of(run(rt).map_err(Unsent::from))
}
