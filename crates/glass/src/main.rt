// The program `glass`: reads a session from standard input, plays it, and draws the panel as it then stands on standard output.
// What ended or spoilt the run is told on standard error.
#![tactic(auto)]

mod options;
mod refusals;

use controller::{is_done, number};
use drawing::{Form, draw};
use lines::{first, write_header, write_row};
use options::{Options, read_options};
use player::{Standing, play_through};
use refusals::refusals_of;
use std::io::IsTerminal;
use std::process::ExitCode;
use telling::{
    INPUT, LIMIT, Unheard, Unsent, heard, read_input, send, send_or_tell, status_of, tell_bad_line,
    tell_too_long, tell_unread, tell_words, whole_or_told,
};

// The program's name, before what it tells.
const NAME: &[u8] = b"glass";

// More than any drawing takes.
const OUTPUT: usize = 65_536;

// Where something is written: two handles of two types, each made where it is wanted.
#[derive(Clone, Copy)]
enum Place {
    Output,
    Errors,
}

fn tell_usage(rt: HostRuntime) -> Result<(), Unheard> {
    for words in [
        "these words cannot be followed. Allowed are COLUMNS LINES (1 to 40, 1 or 2; 20 4; without them 16 2) or --divided,",
        "--until TRANSFERS (0 to 99999), --khz N (190 to 350; without it 250)",
        "and one of --dots, --blocks, --text, --cells and --pbm",
    ] {
        tell_words(&mut rt.stderr(), NAME, words)?;
    }
    Ok(())
}

// Writes all of a text, if it can.
fn write_at(rt: HostRuntime, place: Place, text: &[u8]) -> Result<(), Unsent> {
    match place {
        Place::Output => send(&mut rt.stdout(), text),
        Place::Errors => send(&mut rt.stderr(), text),
    }
}

// On a terminal block characters, which fit its width; elsewhere dots, which any program can read.
fn usual_form(rt: HostRuntime) -> Form {
    if rt.stdout().is_terminal() {
        Form::Blocks
    } else {
        Form::Dots
    }
}

// A bitmap is to be alone on standard output, so that a viewer can read it.
fn place_for_words(form: Form) -> Place {
    match form {
        Form::Bitmap => Place::Errors,
        _ => Place::Output,
    }
}

// The bad line that ended a session, as the session program tells it: the header and its row, and words.
fn tell_end(rt: HostRuntime, place: Place, standing: Standing, text: &[u8]) -> Result<(), Unheard> {
    let mut head = [0u8; 20];
    let mut row = [0u8; 42];
    let line = standing.number;
    // Neither is refused, since both buffers are long enough.
    let _ = write_header(&mut head);
    let length = write_row(
        line,
        number(standing.answer),
        0,
        standing.rec.busy,
        &mut row,
    )
    .unwrap_or(0);
    heard(write_at(rt, place, &head))?;
    heard(write_at(rt, place, first(&row, length)))?;
    tell_bad_line(&mut rt.stderr(), NAME, line, text, standing.from)
}

// Draws the panel in the lit phase, and tells of refusals; a size that no panel has is told with what is allowed.
fn show(rt: HostRuntime, options: Options, standing: Standing) -> Result<(), Unheard> {
    let mut out = [0u8; OUTPUT];
    let form = options.form;
    let Ok(length) = draw(
        form,
        standing.rec,
        &standing.memory,
        options.panel,
        true,
        &mut out,
    ) else {
        return tell_usage(rt);
    };
    let whole = send_or_tell(
        &mut rt.stdout(),
        &mut rt.stderr(),
        NAME,
        first(&out, length),
    )?;
    if !whole || (matches!(form, Form::Bitmap) && standing.refusals == 0) {
        return Ok(());
    }
    heard(write_at(rt, place_for_words(form), refusals_of(standing).text()))
}

// Plays a session, tells of a bad line, and draws what was played so far.
fn play_and_show(rt: HostRuntime, options: Options, text: &[u8]) -> Result<(), Unheard> {
    let standing = play_through(text, options.frequency, options.until);
    if !is_done(standing.answer) {
        tell_end(rt, place_for_words(options.form), standing, text)?;
    }
    show(rt, options, standing)
}

// Reads the session, plays it and draws. The run ends early where nobody reads what it writes.
fn run(rt: HostRuntime) -> Result<(), Unheard> {
    let mut errors = rt.stderr();
    let Some(options) = read_options(&rt, usual_form(rt)) else {
        return tell_usage(rt);
    };
    let mut input = [0u8; INPUT];
    let Ok(length) = read_input(&mut rt.stdin(), &mut input) else {
        return tell_unread(&mut errors, NAME, b"Nothing was played.");
    };
    if LIMIT < length {
        let sent = write_at(rt, place_for_words(options.form), b"too long\n");
        whole_or_told(sent, &mut errors, NAME)?;
        return tell_too_long(&mut errors, NAME, b"Nothing was played.");
    }
    play_and_show(rt, options, &input[..length])
}

fn main(rt: HostRuntime) -> ExitCode {
    status_of(run(rt).map_err(Unsent::from))
}
