// What a panel shows of a controller's record and memory, five dots a byte. Document 01, "The dots", and document 02, request e).
#![tactic(auto)]

mod draw;
mod font;
mod geometry;
mod panel;
mod scene;
mod stretch;

pub use draw::picture;
pub use geometry::{PICTURE_ROOM, is_shown, rows_of, shown_at};
pub use panel::{Profile, Size, size_of};
