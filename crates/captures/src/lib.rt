// A capture from the logic pod, Value Change Dump text, as a session's text, and a session's text as a capture. Request b).
#![tactic(auto)]

mod changes;
mod definitions;
mod falls;
mod faults;
mod form;
mod made;
mod scan;
mod session;
mod table;
mod words;

pub use faults::{Fault, Unknown, Wrong, lacks_signal, unknown_fall, wrong_word};
pub use form::Level;
pub use made::capture;
pub use session::import;
