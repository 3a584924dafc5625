// Session lines and the rows of a report, read and written as text; digits, text and answers in words put into a lent buffer.
// Document 01, "Session lines", "What each number says".
#![tactic(auto)]

mod digits;
mod fields;
mod page;
mod reader;
mod text;
mod words;
mod writer;

pub use digits::{hex_digit, three_digits, worth_of};
pub use page::Page;
pub use reader::{BadLine, Line, read_line};
pub use text::{first, put_byte, put_hex, put_number, put_text};
pub use words::{put_answer, words_of};
pub use writer::{write_header, write_line, write_row};
