// Reset and transfer over a record of 24 bytes and a memory of 144.
ghost use Rattle.std.specs.Prelude.{◌≡◌, length};
ghost use Rattle.controller.specs.Bus.{decided, reset_decided};
ghost use Rattle.interface.specs.ControllerCalls.{Left, Leaves, call_of};
ghost use Rattle.interface.specs.Promises.{YaropeskResetPromise, YaropeskTransferPromise};
ghost use Rattle.interface.specs.RecordBytes.{record_from};

use crate::record_bytes::{is_record_long, read_record, record_from, write_record};
use crate::told::{refused, returned};
use controller::{Answer, Outcome, Record, is_whole, reset, transfer};

// Leaves the record of an outcome in its bytes and tells the rest. The bytes are lent by C, of any length: with
// `<&mut [u8; 24]>::try_from` in place of the `requires` the proof did not close of what stands there when the call returns.
fn leave(outcome: Outcome, bytes: &mut [u8]) -> u32
    requires { length bytes.old ≡ 24 }
    ensures { Left outcome result bytes.new }
{
    write_record(outcome.rec, bytes);
    returned(outcome.answer, outcome.byte)
}

// A transfer from the record that was read.
fn transfer_from(
    rec: Record,
    bytes: &mut [u8],
    memory: &mut [u8],
    kind: u8,
    byte: u8,
    wait: u32,
) -> u32
    requires { length bytes.old ≡ 24 }
    ensures { let call = call_of (decided rec memory.old kind byte wait) memory.old in
        Leaves call result bytes.new memory.new }
{
    leave(transfer(rec, memory, kind, byte, wait), bytes)
}

// One bus transfer.
pub fn yaropesk_transfer(bytes: &mut [u8], memory: &mut [u8], kind: u8, byte: u8, wait: u32) -> u32
    ensures { YaropeskTransferPromise bytes.old memory.old kind byte wait result bytes.new
        memory.new }
{
    match read_record(bytes) {
        None => refused(Answer::Unsound),
        Some(rec) => transfer_from(rec, bytes, memory, kind, byte, wait),
    }
}

// A reset over 24 bytes, whatever they say: of that only a frequency in range is kept.
fn reset_from(bytes: &mut [u8], memory: &mut [u8]) -> u32
    requires { length bytes.old ≡ 24 }
    ensures { let call = call_of (reset_decided (record_from bytes.old) memory.old) memory.old in
        Leaves call result bytes.new memory.new }
{
    leave(reset(record_from(bytes), memory), bytes)
}

// Power on. Any 24 bytes will do for the record.
pub fn yaropesk_reset(bytes: &mut [u8], memory: &mut [u8]) -> u32
    ensures { YaropeskResetPromise bytes.old memory.old result bytes.new memory.new }
{
    if !is_record_long(bytes) {
        return refused(Answer::Unsound);
    }
    if !is_whole(memory) {
        return refused(Answer::NotWhole);
    }
    reset_from(bytes, memory)
}
