// The calls of the crates beneath over numbers and byte slices only, a record as 24 bytes, a wish as 16, for programs in C, which
// reach them through the crate `interface_c`. Each answers every input, and returns the answer's number and 256 times the byte,
// count or length.
#![tactic(auto)]

mod capture_calls;
mod controller_calls;
mod line_calls;
mod picture_calls;
mod plan_calls;
mod record_bytes;
mod told;
mod wish_bytes;

pub use capture_calls::yaropesk_import;
pub use controller_calls::{yaropesk_reset, yaropesk_transfer};
pub use line_calls::{yaropesk_read_line, yaropesk_write_line};
pub use picture_calls::yaropesk_picture;
pub use plan_calls::yaropesk_plan;
