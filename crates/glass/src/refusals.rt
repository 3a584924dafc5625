// What is told under a drawing: how many transfers were played and refused, and the first refused one.
use lines::{Page, words_of};
use player::Standing;
use std::fmt::Write;

// More than the longest such line takes.
pub type Refusals = Page<160>;

// The transfers that were played, one less than the number of the line after them, and what became of them.
pub fn refusals_of(standing: Standing) -> Refusals {
    let mut page = Refusals::new();
    let played = standing.number.saturating_sub(1);
    let plural = if played == 1 { "" } else { "s" };
    // A page takes every text.
    let _ = write!(page, "{played} transfer{plural}, ");
    let _ = match standing.refusals {
        0 => writeln!(page, "none refused"),
        refused => writeln!(
            page,
            "{refused} refused, the first in line {}: {}",
            standing.first,
            words_of(standing.first_answer),
        ),
    };
    page
}
