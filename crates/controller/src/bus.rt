// The public calls. Each answers every input: the refusals in their order, then what the rules say.
ghost use Rattle.std.specs.Prelude.{◌≡◌};
ghost use Rattle.controller.specs.Bus.{decided, must_wait, ordered, reset_decided};
ghost use Rattle.controller.specs.Kind.{kind_number};
ghost use Rattle.controller.specs.Promises.{IsBadPromise, IsWholePromise, ResetPromise, TransferPromise};
ghost use Rattle.controller.specs.Record.{Ready};

use crate::answers::Answer;
use crate::cells::{CELLS, Memory};
use crate::decision::{Decision, Effect, Outcome, perform};
use crate::halves::accept;
use crate::kind::{Kind, kind_of};
use crate::record::{Half, Record, after_reset, is_sound};

// Whether a lent memory, or the marks or values of a wish, are 144 bytes.
#[tactic(auto, unfolding(crate::specs::Bus::whole))]
pub fn is_whole(memory: &[u8]) -> bool
    ensures { IsWholePromise memory.now result }
{
    memory.len() == CELLS
}

// A kind above 3, or a read with a byte.
#[tactic(auto, unfolding(crate::specs::Bus::bad_transfer))]
pub fn is_bad(kind: u8, byte: u8) -> bool
    ensures { IsBadPromise kind byte result }
{
    kind_of(kind, byte).is_none()
}

// With no half waiting and busy above 0, anything but a status read must wait.
#[tactic(auto, unfolding(crate::specs::Bus::must_wait))]
fn must_wait(kind: Kind, rec: Record) -> bool
    ensures { result ≡ must_wait (kind_number kind) rec }
{
    rec.half == Half::Empty && 0 < rec.busy && kind != Kind::StatusRead
}

// The refusals that come after the wait, 4 and 9. `rec` is the record as found, `later` the same after the wait.
#[tactic(auto, unfolding(crate::specs::Bus::ordered))]
fn decide_later(memory: &Memory, kind: Kind, byte: u8, rec: Record, later: Record) -> Decision
    requires { Ready later }
    ensures { result ≡ ordered memory.now (kind_number kind) byte rec later }
{
    if must_wait(kind, later) {
        Decision::refused(Answer::Busy, later)
    } else if !rec.counter.is_on_cell() {
        Decision::refused(Answer::CounterOff, rec)
    } else {
        accept(memory, kind, byte, later)
    }
}

// What a transfer comes to. Refusals 1, 2 and 3 come before the wait and leave the record as found. Kind, byte and wait come
// apart, as the public call takes them; memory and record stay apart, since each step makes a new record and none a new memory.
#[tactic(auto, unfolding(crate::specs::Bus::decided, crate::specs::Bus::whole))]
fn decide(rec: Record, memory: &[u8], kind: u8, byte: u8, wait: u32) -> Decision
    ensures { result ≡ decided rec memory.now kind byte wait }
{
    if !is_sound(rec) {
        return Decision::refused(Answer::Unsound, rec);
    }
    let Ok(memory) = <&Memory>::try_from(memory) else {
        return Decision::refused(Answer::NotWhole, rec);
    };
    let Some(kind) = kind_of(kind, byte) else {
        return Decision::refused(Answer::BadTransfer, rec);
    };
    decide_later(memory, kind, byte, rec, rec.waited(wait))
}

// What reset comes to.
#[tactic(auto, unfolding(crate::specs::Bus::reset_decided))]
fn decide_reset(rec: Record, memory: &[u8]) -> Decision
    ensures { result ≡ reset_decided rec memory.now }
{
    if is_whole(memory) {
        Decision {
            answer: Answer::Done,
            byte: 0,
            rec: after_reset(rec.frequency),
            effect: Effect::Blank,
        }
    } else {
        Decision::refused(Answer::NotWhole, rec)
    }
}

// One bus transfer: its kind (0 instruction write, 1 data write, 2 status read, 3 data read), its byte (00h for a
// read), and the microseconds since the transfer before it.
#[tactic(auto, using(crate::proofs::Laws::Kept::decided_fits))]
pub fn transfer(rec: Record, memory: &mut [u8], kind: u8, byte: u8, wait: u32) -> Outcome
    ensures { TransferPromise rec memory.old kind byte wait result memory.new }
{
    let decision = decide(rec, memory, kind, byte, wait);
    perform(decision.effect, memory);
    decision.into()
}

// Power on. Any record will do, and an unsound one becomes sound; of what it holds only a frequency in range is kept.
#[tactic(auto, using(crate::proofs::Laws::Kept::reset_fits))]
pub fn reset(rec: Record, memory: &mut [u8]) -> Outcome
    ensures { ResetPromise rec memory.old result memory.new }
{
    let decision = decide_reset(rec, memory);
    perform(decision.effect, memory);
    decision.into()
}
