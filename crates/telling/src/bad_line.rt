// A bad line, told on standard error: its number and column, what may stand there, and a hint where the byte there gives one.
use crate::output::Unheard;
use crate::words::tell_words;
use controller::Answer;
use lines::read_line;
use std::io::Write;

// What may stand in the field that has this answer's fault.
fn rule_of(answer: Answer) -> &'static str {
    match answer {
        Answer::BadKind => "a kind is I, D, S or R, then a tab",
        Answer::BadByte => "a byte is two hex digits in capitals, 00 for S and R, then a tab",
        Answer::BadWait => "a wait is decimal digits, without leading zeros, then a newline",
        _ => "a wait ends with a newline",
    }
}

// A small letter in the place of a kind or of a hex digit.
fn is_small(answer: Answer, offset: usize, byte: u8) -> bool {
    match (answer, offset) {
        (Answer::BadKind, 0) => matches!(byte, b'i' | b'd' | b's' | b'r'),
        (Answer::BadByte, 0..4) => matches!(byte, b'a'..=b'f'),
        _ => false,
    }
}

// What a byte that cannot stand tells a typist, if anything.
fn hint_of(answer: Answer, offset: usize, byte: u8) -> &'static str {
    match (byte, answer) {
        (b'\r', _) => " (there is a carriage return: end lines with a newline alone)",
        (b' ', _) => " (there is a blank: fields are parted by one tab)",
        (b'\n', _) if offset == 0 => " (there is an empty line)",
        _ if is_small(answer, offset, byte) => " (there is a small letter: letters are capitals)",
        (_, Answer::BadWait) if 6 < offset => " (the largest wait is 4294967295)",
        _ => "",
    }
}

// What the byte at the fault tells, or that the text ends there.
fn cause_of(answer: Answer, offset: usize, there: Option<u8>) -> &'static str {
    match (there, answer) {
        (Some(byte), _) => hint_of(answer, offset, byte),
        (None, Answer::NoNewline) => " (the text ends there: the last line needs its newline too)",
        (None, _) => " (the text ends there)",
    }
}

// The bad line of this number that begins at this place of a text. Of one that stands there is nothing to tell.
pub fn tell_bad_line<W: Write>(
    errors: &mut W,
    program: &[u8],
    line: u64,
    text: &[u8],
    from: usize,
) -> Result<(), Unheard> {
    let rest = &text[from.min(text.len())..];
    let Err(bad) = read_line(rest) else {
        return Ok(());
    };
    let column = bad.offset + 1;
    let rule = rule_of(bad.answer);
    let cause = cause_of(bad.answer, bad.offset, rest.get(bad.offset).copied());
    tell_words(
        errors,
        program,
        format_args!("line {line}, column {column}: {rule}{cause}"),
    )
}
