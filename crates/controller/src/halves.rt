// One piece at width 8, two halves at width 4.
ghost use Rattle.std.specs.Prelude.{true, ◌≡◌};
ghost use Rattle.controller.specs.Cells.{on_cell};
ghost use Rattle.controller.specs.Halves.{accepted, begun, crossed, ended, first_half, first_told, narrow, second_half};
ghost use Rattle.controller.specs.Kind.{kind_number};
ghost use Rattle.controller.specs.Record.{Ready};

use crate::answers::Answer;
use crate::cells::Memory;
use crate::decision::{Decision, Effect};
use crate::execute::{Transfer, complete, status};
use crate::kind::Kind;
use crate::record::{Half, Record};

// The transfer that a kind and a byte begin. A read's byte is taken here.
#[tactic(auto, unfolding(crate::specs::Halves::begun))]
fn begin(kind: Kind, byte: u8, rec: Record) -> Transfer
    requires { on_cell rec.counter ≡ true }
    ensures { result ≡ begun (kind_number kind) byte rec }
{
    match kind {
        Kind::InstructionWrite => Transfer::Instruct(byte),
        Kind::DataWrite => Transfer::Write(byte),
        Kind::StatusRead => Transfer::Status(status(rec)),
        Kind::DataRead => Transfer::Read(rec.reg),
    }
}

// Answer 5, this byte told, this half stored.
fn store_half(byte: u8, half: Half, rec: Record) -> Decision
    ensures { result ≡ first_told byte half rec }
{
    Decision {
        answer: Answer::FirstHalf,
        byte,
        rec: Record { half, ..rec },
        effect: Effect::Keep,
    }
}

// A write keeps its high four bits, a read its whole byte, and a read returns the high half.
#[tactic(auto, unfolding(crate::specs::Halves::first_half))]
fn first_half(transfer: Transfer, rec: Record) -> Decision
    ensures { result ≡ first_half transfer rec }
{
    match transfer {
        Transfer::Instruct(byte) => store_half(0, Half::InstructionWrite(byte / 16), rec),
        Transfer::Write(byte) => store_half(0, Half::DataWrite(byte / 16), rec),
        Transfer::Status(byte) => store_half(byte / 16 * 16, Half::StatusRead(byte), rec),
        Transfer::Read(byte) => store_half(byte / 16 * 16, Half::DataRead(byte), rec),
    }
}

// A second half of another kind turns answer 0 into 8; 6 and 7 stay.
#[tactic(auto, unfolding(crate::specs::Halves::crossed))]
fn cross(other: bool, answer: Answer) -> Answer
    ensures { result ≡ crossed other answer }
{
    if other && answer == Answer::Done {
        Answer::CrossedHalves
    } else {
        answer
    }
}

// The second half returns the low half in bits 7 to 4.
#[tactic(auto, unfolding(crate::specs::Halves::crossed))]
fn end(other: bool, decision: Decision) -> Decision
    ensures { result ≡ ended other decision }
{
    Decision {
        answer: cross(other, decision.answer),
        byte: decision.byte % 16 * 16,
        ..decision
    }
}

// The second half completes what the first one began.
#[tactic(auto, unfolding(crate::specs::Halves::second_half))]
fn second_half(memory: &Memory, other: bool, transfer: Transfer, rec: Record) -> Decision
    requires { Ready rec }
    ensures { result ≡ second_half memory.now other transfer rec }
{
    end(
        other,
        complete(
            memory,
            transfer,
            Record {
                half: Half::Empty,
                ..rec
            },
        ),
    )
}

// Width 4: the half that waits says what this transfer is. Each half ends in a call of its own: with one call for all four, of
// what the half says, a transfer over four wires takes more time.
#[tactic(auto, unfolding(crate::specs::Halves::narrow))]
fn accept_narrow(memory: &Memory, kind: Kind, byte: u8, rec: Record) -> Decision
    requires { Ready rec }
    ensures { result ≡ narrow memory.now (kind_number kind) byte rec.half rec }
{
    let low = byte / 16;
    match rec.half {
        Half::Empty => first_half(begin(kind, byte, rec), rec),
        Half::InstructionWrite(high) => second_half(
            memory,
            kind != Kind::InstructionWrite,
            Transfer::Instruct(high * 16 + low),
            rec,
        ),
        Half::DataWrite(high) => second_half(
            memory,
            kind != Kind::DataWrite,
            Transfer::Write(high * 16 + low),
            rec,
        ),
        Half::StatusRead(taken) => second_half(
            memory,
            kind != Kind::StatusRead,
            Transfer::Status(taken),
            rec,
        ),
        Half::DataRead(taken) => second_half(
            memory,
            kind != Kind::DataRead,
            Transfer::Read(taken),
            rec,
        ),
    }
}

// Width 8: the transfer is complete at once. Width 4: it is taken as a half.
#[tactic(auto, unfolding(crate::specs::Halves::accepted))]
pub fn accept(memory: &Memory, kind: Kind, byte: u8, rec: Record) -> Decision
    requires { Ready rec }
    ensures { result ≡ accepted memory.now (kind_number kind) byte rec }
{
    if rec.wide {
        complete(memory, begin(kind, byte, rec), rec)
    } else {
        accept_narrow(memory, kind, byte, rec)
    }
}
