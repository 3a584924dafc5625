// The walk through a session's text: each line is read, its transfer sent and, where rows are wanted, its row written.
ghost use Rattle.std.specs.Prelude.{◌≡◌, ◌+◌, ◌<◌, ◌≤◌, length};
ghost use Rattle.controller.specs.Answers.{number_of};
ghost use Rattle.lines.specs.ReportText.{row};
ghost use Rattle.player.specs.Walk.{HasRoom, Played, RowTold, ended_at, room, walked_from};

use crate::tally::{Tally, counted};
use controller::{Answer, Record, is_done, number, transfer};
use lines::{read_line, write_row};

// A place between two lines: the bytes of the text that are read, the bytes of the report that are written, the number of
// the next line, the record, and the refusals so far.
#[derive(Clone, Copy)]
pub struct Place {
    pub from: usize,
    pub at: usize,
    pub number: u64,
    pub rec: Record,
    pub tally: Tally,
}

// Where a line or a whole walk ended: done, or a bad line's answer, and the place, which both have: so it is no Result.
#[derive(Clone, Copy)]
pub struct Ended {
    pub answer: Answer,
    pub place: Place,
}

// Writes a row where rows are wanted; returns the place after it. A closure in place of `rows` would have to promise each of the
// three clauses of `RowTold` for the walk, and would be no plainer.
fn tell(
    rows: bool,
    line: u64,
    answer: Answer,
    byte: u8,
    busy: u32,
    out: &mut [u8],
    at: usize,
) -> usize
    requires { at + room rows 0 ≤ length out.old }
    ensures { RowTold rows (row line (number_of answer) byte busy) at out.old result out.new }
{
    if !rows {
        return at;
    }
    at + write_row(line, number(answer), byte, busy, &mut out[at..]).unwrap_or(0)
}

// Plays the line at a place. A bad one is told, and nothing is sent.
fn play_line(text: &[u8], rows: bool, place: Place, memory: &mut [u8], out: &mut [u8]) -> Ended
    requires { HasRoom rows text.now out.old place × (place.from < length text.now) }
    ensures { Played rows text.now place memory.old out.old
        result memory.new out.new }
{
    let line = match read_line(&text[place.from..]) {
        Ok(line) => line,
        Err(bad) => {
            let at = tell(
                rows,
                place.number,
                bad.answer,
                0,
                place.rec.busy,
                out,
                place.at,
            );
            return Ended {
                answer: bad.answer,
                place: Place { at, ..place },
            };
        }
    };
    let sent = line.sent;
    let told = transfer(place.rec, memory, sent.kind, sent.byte, sent.wait);
    let at = tell(
        rows,
        place.number,
        told.answer,
        told.byte,
        told.rec.busy,
        out,
        place.at,
    );
    Ended {
        answer: Answer::Done,
        place: Place {
            from: place.from + line.length,
            at,
            number: place.number + 1,
            rec: told.rec,
            tally: counted(place.tally, place.number, told.answer),
        },
    }
}

// Plays at most so many lines of what is left of a text from a place on, to its end or to a bad line.
pub fn walk(
    text: &[u8],
    rows: bool,
    most: u64,
    start: Place,
    memory: &mut [u8],
    out: &mut [u8],
) -> Ended
    requires { HasRoom rows text.now out.old start }
    ensures { ended_at result.answer result.place memory.new out.new
        ≡ walked_from rows most text.now start memory.old out.old }
{
    let mut place = start;
    for _played in 0..most {
        if text.len() <= place.from {
            break;
        }
        let ended = play_line(text, rows, place, memory, out);
        if !is_done(ended.answer) {
            return ended;
        }
        place = ended.place;
    }
    Ended {
        answer: Answer::Done,
        place,
    }
}
