// The same transfer on a record that is lent, for a caller who keeps the record in a place of its own.
ghost use Rattle.controller.specs.Promises.{TransferInPromise};

use crate::answers::Answer;
use crate::bus::transfer;
use crate::record::Record;

// What the caller of the loan is told: an Outcome without the record, which stays in the loan.
#[derive(Clone, Copy, PartialEq, Eq)]
pub struct Told {
    pub answer: Answer,
    pub byte: u8,
}

// One bus transfer on a record that is lent: the new record is left in the loan.
pub fn transfer_in(rec: &mut Record, memory: &mut [u8], kind: u8, byte: u8, wait: u32) -> Told
    ensures { TransferInPromise rec.old memory.old kind byte wait result rec.new memory.new }
{
    let outcome = transfer(*rec, memory, kind, byte, wait);
    *rec = outcome.rec;
    Told {
        answer: outcome.answer,
        byte: outcome.byte,
    }
}
