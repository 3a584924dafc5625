// What is asked for on the command line: the oscillator's frequency.
use controller::Frequency;
use std::env::Env;
use telling::{frequency_of, put_word, word_count};

// The frequency that the words ask for, 250 kHz where there are none, if they can be followed: `--khz` and a number.
pub fn asked_frequency<E: Env>(env: &E) -> Option<Frequency> {
    match word_count(env) {
        0 | 1 => Some(Frequency::OLDER),
        3 => {
            let mut word = [0u8; 8];
            let length = put_word(env, 1, &mut word)?;
            if !matches!(&word[..length], b"--khz") {
                return None;
            }
            let length = put_word(env, 2, &mut word)?;
            frequency_of(&word[..length])
        }
        _ => None,
    }
}
