// A panel drawn for people: its dots in a frame, as block characters or as a bitmap, its letters, or its cells listed, each
// written into a lent buffer.
#![tactic(auto)]

mod bitmap;
mod blocks;
mod drawing;
mod frame;
mod glass;
mod grid;
mod letters;
mod listing;
mod numbers;
mod state;

pub use drawing::{Form, draw};
