// Reading a session line from the left, field by field: kind, byte, wait, ending. Its fault is the first byte that cannot stand.
// Document 01, "Session lines"; document 02, c).
ghost use Rattle.std.specs.Prelude.{◌≡◌, ◌<◌, ◌≤◌, false, drop, IfErr, IfOk};
ghost use Rattle.controller.specs.Answers.{is_done};
ghost use Rattle.lines.specs.Line.{wait_limit};
ghost use Rattle.lines.specs.Promises.{ReadLinePromise};
ghost use Rattle.lines.specs.Reading.{byte_read, digit_read, fault, kind_read, may_follow, rest_of, text_at, wait_of};

use crate::digits::{decimal_worth, kind_of, worth_of};
use controller::{Answer, Sent};

// A line: its transfer and its length.
#[derive(Clone, Copy)]
pub struct Line {
    pub sent: Sent,
    pub length: usize,
}

// The fault of a text that begins with no line: the answer, and the offset of the first byte that cannot stand, or the text's
// length where it ends early. That the answer is a fault each field says for itself (`fault`): an invariant of the type would
// have to be proved wherever the definitions make one.
#[derive(Clone, Copy)]
pub struct BadLine {
    pub answer: Answer,
    pub offset: usize,
}

fn fault(answer: Answer, offset: usize) -> BadLine
    ensures { result ≡ fault answer offset }
{
    BadLine { answer, offset }
}

// The byte at a place, and 00h past the end: drawing has the like, and a public function for both would want a promise.
#[tactic(auto, unfolding(crate::specs::Reading::text_at))]
fn text_at(text: &[u8], place: usize) -> u8
    ensures { result ≡ text_at text.now place }
{
    text.get(place).copied().unwrap_or(0)
}

// The kind: its letter, and its tab. It is a number, as `Reading.kind_read` gives it and `Sent` carries it.
#[tactic(auto, unfolding(crate::specs::Reading::kind_read))]
fn read_kind(text: &[u8]) -> Result<u8, BadLine>
    ensures kind { result ≡ kind_read text.now }
    ensures fault { IfErr result (λ bad. is_done bad.answer ≡ false) }
{
    let Some(kind) = kind_of(text_at(text, 0)) else {
        return Err(fault(Answer::BadKind, 0));
    };
    if text_at(text, 1) != b'\t' {
        return Err(fault(Answer::BadKind, 1));
    }
    Ok(kind)
}

// One of the byte's two digits, at its place. `S` and `R` carry 00.
#[tactic(auto, unfolding(crate::specs::Reading::digit_stands))]
fn read_digit(kind: u8, text: &[u8], offset: usize) -> Result<u8, BadLine>
    ensures digit { result ≡ digit_read kind text.now offset }
    ensures below { IfOk result (λ worth. worth < 16) }
    ensures fault { IfErr result (λ bad. is_done bad.answer ≡ false) }
{
    match worth_of(text_at(text, offset)) {
        Some(worth) if kind < 2 || worth == 0 => Ok(worth),
        _ => Err(fault(Answer::BadByte, offset)),
    }
}

// The byte: its two digits, and its tab.
#[tactic(auto, unfolding(crate::specs::Reading::byte_read))]
fn read_byte(kind: u8, text: &[u8]) -> Result<u8, BadLine>
    ensures byte { result ≡ byte_read kind text.now }
    ensures fault { IfErr result (λ bad. is_done bad.answer ≡ false) }
{
    let high = read_digit(kind, text, 2)?;
    let low = read_digit(kind, text, 3)?;
    if text_at(text, 4) != b'\t' {
        return Err(fault(Answer::BadByte, 4));
    }
    Ok(high * 16 + low)
}

// Whether a digit may follow digits of this value: not after a leading zero, and not past the limit.
fn may_follow(value: u64, worth: u8) -> bool
    requires { value ≤ wait_limit }
    ensures { result ≡ may_follow value worth }
{
    0 < value && value * 10 + worth as u64 <= 4_294_967_295
}

// The wait's digits after the first, and the newline: the wait, and the length of the line that it ends.
fn read_rest(text: &[u8], first: u8) -> Result<(u32, usize), BadLine>
    requires { first < 10 }
    ensures rest { result ≡ rest_of 6 first (drop 6 text.now) }
    ensures fault { IfErr result (λ bad. is_done bad.answer ≡ false) }
{
    let mut value = first as u64;
    // Over places and not bytes, since the place is the fault's offset.
    for place in 6..text.len() {
        let byte = text[place];
        if byte == b'\n' {
            return Ok((value as u32, place + 1));
        }
        let Some(worth) = decimal_worth(byte) else {
            return Err(fault(Answer::NoNewline, place));
        };
        if !may_follow(value, worth) {
            return Err(fault(Answer::BadWait, place));
        }
        value = value * 10 + worth as u64;
    }
    Err(fault(Answer::NoNewline, text.len().max(6)))
}

// The wait: a first digit, and its rest.
#[tactic(auto, unfolding(crate::specs::Reading::wait_of))]
fn read_wait(text: &[u8]) -> Result<(u32, usize), BadLine>
    ensures wait { result ≡ wait_of text.now }
    ensures fault { IfErr result (λ bad. is_done bad.answer ≡ false) }
{
    let Some(first) = decimal_worth(text_at(text, 5)) else {
        return Err(fault(Answer::BadWait, 5));
    };
    read_rest(text, first)
}

// The line at the start of the text, or its first fault from the left.
#[tactic(auto, unfolding(crate::specs::Reading::line_of, crate::specs::Reading::with_kind, crate::specs::Reading::with_byte, crate::specs::Reading::with_wait))]
pub fn read_line(text: &[u8]) -> Result<Line, BadLine>
    ensures { ReadLinePromise text.now result }
{
    let kind = read_kind(text)?;
    let byte = read_byte(kind, text)?;
    let (wait, length) = read_wait(text)?;
    Ok(Line {
        sent: Sent { kind, byte, wait },
        length,
    })
}
