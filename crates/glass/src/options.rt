// What is asked for on the command line: the panel, the form of the drawing, the oscillator's frequency, and how many
// transfers are played.
use controller::Frequency;
use dots::{Profile, Size};
use drawing::Form;
use std::env::Env;
use std::str::from_utf8;
use telling::{frequency_of, put_word, word_count};

#[derive(Clone, Copy)]
pub struct Options {
    pub form: Form,
    pub panel: Profile,
    // At most so many transfers are played.
    pub until: u64,
    pub frequency: Frequency,
}

// What the words so far ask for.
#[derive(Clone, Copy, Default)]
struct Asked {
    form: Option<Form>,
    divided: Option<()>,
    columns: Option<u8>,
    lines: Option<u8>,
    until: Option<u64>,
    frequency: Option<Frequency>,
}

// Nothing can be asked for twice.
fn ask<T: Copy>(asked: &mut Option<T>, value: T) -> Option<()> {
    match asked.replace(value) {
        None => Some(()),
        Some(_) => None,
    }
}

// A word of digits alone: `parse` would take a sign before them too.
fn digits_of(word: &[u8]) -> Option<&str> {
    let digits = from_utf8(word).ok()?;
    if digits.bytes().all(|byte| byte.is_ascii_digit()) {
        Some(digits)
    } else {
        None
    }
}

// A number of columns or lines has one digit or two.
fn size_of(word: &[u8]) -> Option<u8> {
    match word {
        [_] | [_, _] => digits_of(word)?.parse().ok(),
        _ => None,
    }
}

// No session has more than 99,999 transfers.
fn transfers_of(word: &[u8]) -> Option<u64> {
    digits_of(word)?
        .parse()
        .ok()
        .filter(|&count| count <= 99_999)
}

impl Asked {
    // The panel. The one of 20 x 4 is named by its size, since no other has four lines.
    fn panel(self) -> Option<Profile> {
        match (self.divided, self.columns, self.lines) {
            (None, None, None) => Some(Profile::Plain(Size {
                columns: 16,
                lines: 2,
            })),
            (None, Some(20), Some(4)) => Some(Profile::FourRows),
            (None, Some(columns), Some(lines)) => Some(Profile::Plain(Size { columns, lines })),
            (Some(()), None, None) => Some(Profile::Divided),
            _ => None,
        }
    }
}

// What the words of the command line ask for, if they can be followed; where they ask for no form it is the usual one.
pub fn read_options<E: Env>(env: &E, usual: Form) -> Option<Options> {
    let mut asked = Asked::default();
    let mut places = 1..word_count(env);
    // No `for`: two of the words take the word behind them too.
    while let Some(at) = places.next() {
        // Nine bytes are the longest word that is known.
        let mut text = [0u8; 9];
        let length = put_word(env, at, &mut text)?;
        match &text[..length] {
            b"--dots" => ask(&mut asked.form, Form::Dots)?,
            b"--blocks" => ask(&mut asked.form, Form::Blocks)?,
            b"--text" => ask(&mut asked.form, Form::Letters)?,
            b"--cells" => ask(&mut asked.form, Form::Cells)?,
            b"--pbm" => ask(&mut asked.form, Form::Bitmap)?,
            b"--divided" => ask(&mut asked.divided, ())?,
            b"--until" => {
                let length = put_word(env, places.next()?, &mut text)?;
                ask(&mut asked.until, transfers_of(&text[..length])?)?
            }
            b"--khz" => {
                let length = put_word(env, places.next()?, &mut text)?;
                ask(&mut asked.frequency, frequency_of(&text[..length])?)?
            }
            word if asked.columns.is_none() => asked.columns = Some(size_of(word)?),
            word => ask(&mut asked.lines, size_of(word)?)?,
        }
    }
    Some(Options {
        form: asked.form.unwrap_or(usual),
        panel: asked.panel()?,
        until: asked.until.unwrap_or(u64::MAX),
        frequency: asked.frequency.unwrap_or(Frequency::OLDER),
    })
}
