// A session's text, played from reset: into a report, or to see how it leaves the bench. Document 01, "Session lines".
#![tactic(auto)]

mod session;
mod tally;
mod through;
mod walk;

pub use session::play;
pub use through::{Standing, play_through};
