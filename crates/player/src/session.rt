// Playing a session into its report.
ghost use Rattle.std.specs.Prelude.{◌≡◌, ◌+◌, ◌*◌, ltb};
ghost use Rattle.player.specs.Promises.{PlayPromise};

use crate::tally::no_refusal;
use crate::walk::{Place, walk};
use controller::{Answer, Frequency, after_reset, reset};
use lines::write_header;

// Whether a buffer of this many bytes is shorter than the report of so long a text can be.
fn is_short(text: usize, out: usize) -> bool
    ensures { result ≡ ltb out (6 * text + 62) }
{
    out < 62 || (out - 62) / 6 < text
}

// The whole report of a session, where this oscillator is fitted, into a buffer of at least six bytes for each byte of the text
// and 62 more.
pub fn play(text: &[u8], frequency: Frequency, out: &mut [u8]) -> Result<usize, Answer>
    ensures { PlayPromise text.now frequency out.old result out.new }
{
    if is_short(text.len(), out.len()) {
        return Err(Answer::OutputShort);
    }
    let at = write_header(out)?;
    let mut memory = [0u8; 144];
    let begun = reset(after_reset(frequency), &mut memory);
    let start = Place {
        from: 0,
        at,
        number: 1,
        rec: begun.rec,
        tally: no_refusal(),
    };
    let ended = walk(text, true, u64::MAX, start, &mut memory, out);
    Ok(ended.place.at)
}
