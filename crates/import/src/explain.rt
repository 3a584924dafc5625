// A refused capture in words: its number, what is at fault and where, and what to do.
use captures::{Fault, Level, lacks_signal, unknown_fall, wrong_word};
use controller::{Answer, number};
use lines::{Page, first, words_of};
use std::fmt::Write;
use std::io;
use telling::{Unheard, heard, send};

// More than any of these takes.
type Words = Page<1024>;

// As many bytes of a word are shown.
const SHOWN: usize = 40;

// The needed signals, by their lines, as they are told: captures knows them as one text. The last eight are needed for writes
// only.
const NAMES: [&str; 11] = [
    "RS", "RW", "E", "DB0", "DB1", "DB2", "DB3", "DB4", "DB5", "DB6", "DB7",
];

// The line of a text that a place is on, counted from 1.
fn line_of(text: &[u8], place: usize) -> usize {
    first(text, place).split(|&byte| byte == b'\n').count()
}

// The word that begins at a place of a text, as much of it as is shown.
fn word_at(text: &[u8], place: usize) -> &[u8] {
    let shown = first(text.get(place..).unwrap_or(&[]), SHOWN);
    match shown
        .iter()
        .position(|&byte| matches!(byte, b' ' | b'\t' | b'\n' | b'\r'))
    {
        Some(end) => &shown[..end],
        None => shown,
    }
}

// The bytes of a word, in quotes, with a mark for each that cannot be shown.
fn put_word(page: &mut Words, word: &[u8]) {
    page.put_byte(b'"');
    for &byte in word {
        page.put_byte(if matches!(byte, b' '..=b'~') {
            byte
        } else {
            b'?'
        });
    }
    page.put_byte(b'"');
}

// What is wrong and what may stand, in words behind the word at fault; where the text ends too early there is none.
fn told_of(fault: Fault) -> &'static str {
    match fault {
        Fault::Unfinished =>
            "the text ends too early. It ends behind $enddefinitions $end, stamps and changes, \
            each $dumpvars with its $end.",
        Fault::Misplaced =>
            " cannot stand there. Read are $timescale 1 us, $scope, $var of size 1, $upscope and \
            $enddefinitions, each with its $end, then stamps, changes of scalars and $dumpvars.",
        Fault::Twice => " is declared a second time. Each needed signal is declared once.",
        Fault::Undeclared => " changes a code that no $var declares.",
    }
}

// Line and word of what leaves the subset, and what may stand.
fn put_wrong(page: &mut Words, capture: &[u8]) {
    let wrong = wrong_word(capture);
    // A page takes every text, here and below.
    let _ = write!(page, ": line {}, ", line_of(capture, wrong.place));
    if !matches!(wrong.fault, Fault::Unfinished) {
        put_word(page, word_at(capture, wrong.place));
    }
    page.put_text(told_of(wrong.fault).as_bytes());
}

// The names of the signals that are missing.
fn put_missing(page: &mut Words, capture: &[u8]) {
    page.put_byte(b':');
    for (line, name) in NAMES.iter().enumerate() {
        if lacks_signal(capture, line) {
            let _ = write!(page, " {name}");
        }
    }
    page.put_text(b". Record RS, RW, E and DB0 to DB7, each under exactly this name.");
}

// The lines at x or z where E falls, its stamp and where that stands.
fn put_unknown(page: &mut Words, capture: &[u8]) {
    let Some(fall) = unknown_fall(capture) else {
        return;
    };
    let needed = if fall.levels[1] == Level::Low { 11 } else { 3 };
    page.put_byte(b':');
    for (name, &level) in NAMES.iter().zip(&fall.levels).take(needed) {
        if level == Level::Open {
            let _ = write!(page, " {name}");
        }
    }
    let _ = write!(
        page,
        " at stamp {}, line {}. A probe is off or floats: RS, RW and, for writes, DB0 to DB7 must be 0 or 1 where E falls.",
        fall.stamp,
        line_of(capture, fall.place),
    );
}

// A refused capture, as one line.
pub fn tell_refusal<W: io::Write>(
    errors: &mut W,
    capture: &[u8],
    answer: Answer,
) -> Result<(), Unheard> {
    let mut page = Words::new();
    let _ = write!(page, "import: {}, {}", number(answer), words_of(answer));
    match answer {
        Answer::OutsideSubset => put_wrong(&mut page, capture),
        Answer::SignalMissing => put_missing(&mut page, capture),
        Answer::LevelUnknown => put_unknown(&mut page, capture),
        _ => page.put_byte(b'.'),
    }
    page.put_byte(b'\n');
    heard(send(errors, page.text()))
}
