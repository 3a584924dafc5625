// One HD44780-type controller: a bus transfer and the time since the last one go in; the answer, the byte read back,
// the controller's record and its memory come out. Document 01, "The controller's record and memory" and "One transfer".
//
// Every transfer is decided first, by functions that change nothing, and then performed: `decision` has the parts.
#![tactic(auto)]

mod answers;
mod bus;
mod cells;
mod decision;
mod execute;
mod halves;
mod instruction;
mod kind;
mod loan;
mod oscillator;
mod record;
mod sent;

pub use answers::{Answer, is_done, is_refusal, number};
pub use bus::{is_bad, is_whole, reset, transfer};
pub use cells::{Acg, Add, Counter, address_set, cell_of, line_length};
pub use decision::Outcome;
pub use execute::{long_time, short_time};
pub use kind::Kind;
pub use loan::{Told, transfer_in};
pub use oscillator::{Frequency, is_in_range};
pub use record::{Control, Entry, Function, Half, Record, after_reset, is_sound};
pub use sent::{Sent, little_endian, number_from, six_bytes};
