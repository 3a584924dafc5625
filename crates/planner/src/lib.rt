// Writes the transfers that bring a panel into a wished state, from whatever state its controller is in. Document 01,
// "The plan".
#![tactic(auto)]

mod call;
mod commands;
mod pen;
mod wish;

pub use call::plan;
pub use wish::Wish;
