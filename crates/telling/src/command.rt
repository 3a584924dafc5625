// The words of the command line, of which word 0 is the program's own name. std's `args` takes memory, and no word but UTF-8.
ghost use Rattle.std.specs.Prelude.{◌≡◌, ◌≤◌, IfSome, length};
ghost use Rattle.telling.specs.Command.{frequency_of};

use controller::{Frequency, is_in_range};
use lines::three_digits;
use std::env::{Env, FillError};

// How many words there are.
pub fn word_count<E: Env>(env: &E) -> usize {
    (0..usize::MAX)
        .take_while(|&at| !matches!(env.arg(at, &mut []), Err(FillError::NotPresent)))
        .count()
}

// Puts the word at this place at the start of a buffer, and gives its length: none where it is missing or longer than the buffer.
// A length, as std tells it.
pub fn put_word<E: Env>(env: &E, at: usize, word: &mut [u8]) -> Option<usize>
    ensures { IfSome result (λ put. put ≤ length word.new) }
{
    env.arg(at, word).ok()
}

// The oscillator's frequency in kHz that a word says, where a module can have it.
pub fn frequency_of(word: &[u8]) -> Option<Frequency>
    ensures { result ≡ frequency_of word.now }
{
    let frequency = Frequency {
        khz: three_digits(word)?,
    };
    if is_in_range(frequency) {
        Some(frequency)
    } else {
        None
    }
}
