// What a transfer comes to, and the one function that writes to the memory.
ghost use Rattle.std.specs.Prelude.{◌≡◌, ◌≤◌, length};
ghost use Rattle.controller.specs.Decision.{Fits, blanked, done, outcome_of, performed, refused};

use crate::answers::Answer;
use crate::record::Record;

// All that can happen to the memory: nothing, one byte stored at a place, or the display cells blanked to 20h.
#[derive(Clone, Copy)]
pub enum Effect {
    Keep,
    Store(usize, u8),
    Blank,
}

// What is to be told, the record to be left, and the effect to be performed. An Outcome has the first three of them again, as the
// definitions do (`outcome_of`).
#[derive(Clone, Copy)]
pub struct Decision {
    pub answer: Answer,
    pub byte: u8,
    pub rec: Record,
    pub effect: Effect,
}

// What the caller is told and given back. No Result: byte and record come with every answer, and 5, 7 and 8 refuse nothing
// (`TransferPromise`).
#[derive(Clone, Copy, PartialEq, Eq)]
pub struct Outcome {
    pub answer: Answer,
    pub byte: u8,
    pub rec: Record,
}

impl Decision {
    // A refusal: no byte, and the memory as it was.
    pub fn refused(answer: Answer, rec: Record) -> Decision
        ensures { result ≡ refused answer rec }
    {
        Decision {
            answer,
            byte: 0,
            rec,
            effect: Effect::Keep,
        }
    }

    // Done, and busy for this time.
    pub fn done(time: u32, effect: Effect, rec: Record) -> Decision
        ensures { result ≡ done time effect rec }
    {
        Decision {
            answer: Answer::Done,
            byte: 0,
            rec: Record { busy: time, ..rec },
            effect,
        }
    }
}

// A decision as its caller hears of it.
impl From<Decision> for Outcome {
    ghost from_gives = { λ decision outcome. outcome ≡ outcome_of decision };

    fn from(decision: Decision) -> Outcome {
        Outcome {
            answer: decision.answer,
            byte: decision.byte,
            rec: decision.rec,
        }
    }
}

// Display cells 20h; pattern cells untouched.
fn blank(memory: &mut [u8])
    requires { 80 ≤ length memory.old }
    ensures { memory.new ≡ blanked memory.old }
{
    memory[..80].fill(0x20);
}

#[tactic(auto, unfolding(crate::specs::Decision::performed))]
pub fn perform(effect: Effect, memory: &mut [u8])
    requires { Fits effect memory.old }
    ensures { memory.new ≡ performed effect memory.old }
{
    match effect {
        Effect::Keep => (),
        Effect::Store(at, byte) => memory[at] = byte,
        Effect::Blank => blank(memory),
    }
}
