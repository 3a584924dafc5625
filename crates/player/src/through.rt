// Playing a session through without a report, to see how it leaves the bench.
ghost use Rattle.player.specs.Promises.{PlayThroughPromise};

use crate::tally::no_refusal;
use crate::walk::{Place, walk};
use controller::{Answer, Frequency, Record, after_reset, reset};

// How a text leaves the bench: done or the answer of its bad line, the number of the line that would be played next (the bad
// one's) and the place in the text where it begins, the record and the memory; how many transfers were refused, and the first
// one's line and answer, 0 and done where none was. Each stands for itself, and not in a Result or an Option: `BadLineTold`,
// `NoneIsFirst` and `FirstTold` name them.
#[derive(Clone, Copy)]
pub struct Standing {
    pub answer: Answer,
    pub number: u64,
    pub from: usize,
    pub rec: Record,
    pub memory: [u8; 144],
    pub refusals: u64,
    pub first: u64,
    pub first_answer: Answer,
}

// At most so many of a text's transfers, sent to a controller with this oscillator after reset, with pattern cells 00h.
pub fn play_through(text: &[u8], frequency: Frequency, most: u64) -> Standing
    ensures { PlayThroughPromise text.now frequency most result }
{
    let mut memory = [0u8; 144];
    let begun = reset(after_reset(frequency), &mut memory);
    let start = Place {
        from: 0,
        at: 0,
        number: 1,
        rec: begun.rec,
        tally: no_refusal(),
    };
    let ended = walk(text, false, most, start, &mut memory, &mut []);
    let place = ended.place;
    Standing {
        answer: ended.answer,
        number: place.number,
        from: place.from,
        rec: place.rec,
        memory,
        refusals: place.tally.count,
        first: place.tally.first,
        first_answer: place.tally.answer,
    }
}
