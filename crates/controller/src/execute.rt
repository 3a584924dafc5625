// What a complete transfer does.
ghost use Rattle.std.specs.Prelude.{true, ◌≡◌, ◌<◌};
ghost use Rattle.controller.specs.Cells.{Within, on_cell};
ghost use Rattle.controller.specs.Execute.{addressed, carried, changed, cleared, completed, cursor_at, executed};
ghost use Rattle.controller.specs.Execute.{homed, loaded, moved_on, placed, read_out, shifted, status_of, written};
ghost use Rattle.controller.specs.Promises.{LongTimePromise, ShortTimePromise};
ghost use Rattle.controller.specs.Record.{Ready};

use crate::answers::Answer;
use crate::cells::{Counter, Memory, cell_of_acg, cell_of_add, load, wrap};
use crate::decision::{Decision, Effect};
use crate::instruction::{Instruction, decode};
use crate::oscillator::{Frequency, time_at};
use crate::record::{Entry, Record};

// A complete transfer, with the byte that it writes or returns: a `Kind` with its byte, as the definitions have it (`completed`).
#[derive(Clone, Copy)]
pub enum Transfer {
    Instruct(u8),
    Write(u8),
    Status(u8),
    Read(u8),
}

// Clear and Home take the long time, all else that takes time the short one: 1,640 and 40 microseconds at 250 kHz (document
// 002), and at another frequency as much longer or shorter. Two functions, since a flag for which of them would be no plainer.
#[tactic(auto, unfolding(crate::specs::Execute::short_time))]
pub fn short_time(frequency: Frequency) -> u32
    ensures { ShortTimePromise frequency result }
{
    time_at(40, frequency)
}

#[tactic(auto, unfolding(crate::specs::Execute::long_time))]
pub fn long_time(frequency: Frequency) -> u32
    ensures { LongTimePromise frequency result }
{
    time_at(1_640, frequency)
}

// The steps that instructions and data transfers are made of.
impl Record {
    // The counter on this cell.
    fn placed(self, counter: Counter) -> Record
        ensures { result ≡ placed counter self }
    {
        Record { counter, ..self }
    }

    // The counter one cell on, as I/D says. That the counter is on a cell and the shift below 80 stands in the clauses: both
    // types are public and may be unsound, which is answered 1, and each step makes a record by update.
    fn moved_on(self) -> Record
        requires { on_cell self.counter ≡ true }
        ensures { result ≡ moved_on self }
    {
        Record {
            counter: self.counter.stepped(self.entry.id),
            ..self
        }
    }

    // The register loaded from the counter's cell, fresh.
    fn loaded(self, memory: &Memory) -> Record
        requires { on_cell self.counter ≡ true }
        ensures { result ≡ loaded memory.now self }
    {
        Record {
            reg: load(memory, self.counter),
            fresh: true,
            ..self
        }
    }

    // Counter cell 0, shift 0, and the register stale.
    fn homed(self) -> Record
        ensures { result ≡ homed self }
    {
        Record {
            counter: Counter::Display(0),
            shift: 0,
            fresh: false,
            ..self
        }
    }

    // As Home, and the counter runs rightward again.
    fn cleared(self) -> Record
        ensures { result ≡ cleared self }
    {
        Record {
            entry: Entry {
                id: true,
                ..self.entry
            },
            ..self.homed()
        }
    }

    // In display memory a cursor move loads the register; in pattern memory it leaves it stale.
    #[tactic(auto, unfolding(crate::specs::Execute::cursor_at))]
    fn cursor_at(self, memory: &Memory, counter: Counter) -> Record
        requires { on_cell counter ≡ true }
        ensures { result ≡ cursor_at memory.now counter self }
    {
        match counter {
            Counter::Display(_) => self.placed(counter).loaded(memory),
            Counter::Pattern(_) => Record {
                counter,
                fresh: false,
                ..self
            },
        }
    }

    // The display shifted by one cell.
    fn shifted(self, up: bool) -> Record
        requires { self.shift < 80 }
        ensures { result ≡ shifted up self }
    {
        Record {
            shift: wrap(80, up, self.shift),
            ..self
        }
    }

    // The display follows a data write to this cell: in display memory, with S=1.
    #[tactic(auto, unfolding(crate::specs::Execute::carried))]
    fn carried(self, counter: Counter) -> Record
        requires { self.shift < 80 }
        ensures { result ≡ carried counter self }
    {
        match counter {
            Counter::Display(_) if self.entry.s => self.shifted(self.entry.id),
            _ => self,
        }
    }
}

// Done in the short time.
fn change(rec: Record) -> Decision
    ensures { result ≡ changed rec }
{
    Decision::done(short_time(rec.frequency), Effect::Keep, rec)
}

// A cell that an address names: the counter goes there, and the register is loaded. Refusal 6 where it names none.
#[tactic(auto, using(crate::proofs::Laws::Cells::display_on), unfolding(crate::specs::Execute::addressed))]
fn go_to(memory: &Memory, named: Option<u8>, rec: Record) -> Decision
    requires { Within named }
    ensures { result ≡ addressed memory.now named rec }
{
    match named {
        Some(cell) => change(rec.placed(Counter::Display(cell)).loaded(memory)),
        None => Decision::refused(Answer::NoCell, rec),
    }
}

#[tactic(auto, using(crate::proofs::Laws::Cells::landings), unfolding(crate::specs::Execute::executed))]
fn execute(memory: &Memory, instruction: Instruction, rec: Record) -> Decision
    requires { Ready rec }
    ensures { result ≡ executed memory.now instruction rec }
{
    match instruction {
        Instruction::Nothing => change(rec),
        Instruction::Clear => Decision::done(
            long_time(rec.frequency),
            Effect::Blank,
            rec.cleared(),
        ),
        Instruction::Home => Decision::done(long_time(rec.frequency), Effect::Keep, rec.homed()),
        Instruction::SetEntry(entry) => change(Record { entry, ..rec }),
        Instruction::SetControl(control) => change(Record { control, ..rec }),
        Instruction::MoveCursor(right) => change(rec.cursor_at(memory, rec.counter.stepped(right))),
        Instruction::ShiftDisplay(right) => change(rec.shifted(!right)),
        Instruction::SetFunction(wide, function) => change(Record {
            wide,
            function,
            ..rec
        }),
        Instruction::PatternAddress(acg) => change(
            rec.placed(Counter::Pattern(cell_of_acg(acg)))
                .loaded(memory),
        ),
        Instruction::DisplayAddress(add) => go_to(memory, cell_of_add(rec.function.n, add), rec),
    }
}

// A data write: the byte into the counter's cell, and into the register, stale.
#[tactic(auto, unfolding(crate::specs::Execute::written))]
fn write(byte: u8, rec: Record) -> Decision
    requires { (on_cell rec.counter ≡ true) × (rec.shift < 80) }
    ensures { result ≡ written byte rec }
{
    Decision::done(
        short_time(rec.frequency),
        Effect::Store(rec.counter.place(), byte),
        Record {
            reg: byte,
            fresh: false,
            ..rec.moved_on().carried(rec.counter)
        },
    )
}

// A data read of this byte: the counter moves on, and the register is loaded from its new cell. It never shifts.
#[tactic(auto, using(crate::proofs::Laws::Cells::stepped_on), unfolding(crate::specs::Execute::read_out))]
fn read(memory: &Memory, byte: u8, rec: Record) -> Decision
    requires { Ready rec }
    ensures { result ≡ read_out memory.now byte rec }
{
    Decision {
        answer: if rec.fresh {
            Answer::Done
        } else {
            Answer::StaleRead
        },
        byte,
        rec: Record {
            busy: short_time(rec.frequency),
            ..rec.moved_on().loaded(memory)
        },
        effect: Effect::Keep,
    }
}

// Bit 7 while busy, and the counter's address.
#[tactic(auto, using(crate::proofs::Laws::Cells::address_below), unfolding(crate::specs::Execute::status_of))]
pub fn status(rec: Record) -> u8
    requires { on_cell rec.counter ≡ true }
    ensures { result ≡ status_of rec }
{
    let at = rec.counter.address(rec.function.n);
    if 0 < rec.busy { 0x80 + at } else { at }
}

// What a complete transfer does. A status read takes no time and alters nothing.
#[tactic(auto, unfolding(crate::specs::Execute::completed))]
pub fn complete(memory: &Memory, transfer: Transfer, rec: Record) -> Decision
    requires { Ready rec }
    ensures { result ≡ completed memory.now transfer rec }
{
    match transfer {
        Transfer::Instruct(byte) => execute(memory, decode(byte), rec),
        Transfer::Write(byte) => write(byte, rec),
        Transfer::Status(byte) => Decision {
            answer: Answer::Done,
            byte,
            rec,
            effect: Effect::Keep,
        },
        Transfer::Read(byte) => read(memory, byte, rec),
    }
}
