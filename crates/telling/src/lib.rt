// What the programs share: standard input read to its end, the words of the command line, and what ended or spoilt a run told on
// standard error in words.
#![tactic(auto)]

mod bad_line;
mod command;
mod input;
mod output;
mod words;

pub use bad_line::tell_bad_line;
pub use command::{frequency_of, put_word, word_count};
pub use input::{Unread, read_input};
pub use output::{Unheard, Unsent, heard, is_failed, is_heard, is_whole, send, status_of};
pub use words::{
    send_or_tell, tell, tell_too_long, tell_unread, tell_unwritten, tell_words, whole_or_told,
};

// The longest session.
pub const LIMIT: usize = 65_536;

// A session and one byte more, by which a longer one shows.
pub const INPUT: usize = LIMIT + 1;
