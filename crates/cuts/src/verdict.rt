// What demand 3 says of a run that ended: nothing was refused as busy, the record is the wished one in every field, and
// every cell holds its wished byte if named, and its first byte if not, but for the excepted one.
use crate::cells::{first_byte, wished_byte};
use crate::runs::{Bench, Run};
use crate::wishes::Named;
use controller::{Counter, Half, Record, short_time};
use planner::Wish;
use std::fmt;

// What is not as demand 3 says.
#[derive(Clone, Copy)]
pub enum Fault {
    Refused,
    Width,
    Waiting,
    Function,
    Control,
    Entry,
    Shift,
    Counter,
    Register,
    Stale,
    Busy,
    Frequency,
    Cell(u8),
}

impl fmt::Display for Fault {
    fn fmt<W: fmt::Write>(&self, f: &mut fmt::Formatter<W>) -> fmt::Result {
        match self {
            Fault::Refused => f.write_str("refused as busy"),
            Fault::Width => f.write_str("width"),
            Fault::Waiting => f.write_str("half waiting"),
            Fault::Function => f.write_str("N or F"),
            Fault::Control => f.write_str("D, C or B"),
            Fault::Entry => f.write_str("I/D or S"),
            Fault::Shift => f.write_str("shift"),
            Fault::Counter => f.write_str("counter"),
            Fault::Register => f.write_str("register"),
            Fault::Stale => f.write_str("register stale"),
            Fault::Busy => f.write_str("busy"),
            Fault::Frequency => f.write_str("frequency"),
            Fault::Cell(place) => write!(f, "cell {place}"),
        }
    }
}

fn hold(holds: bool, fault: Fault) -> Result<(), Fault> {
    if holds { Ok(()) } else { Err(fault) }
}

// Width 4 with no half waiting, and busy with an instruction that takes the short time at the wish's frequency, which is the
// module's.
fn judge_bus(rec: Record, wish: Wish) -> Result<(), Fault> {
    hold(!rec.wide, Fault::Width)?;
    hold(rec.half == Half::Empty, Fault::Waiting)?;
    hold(rec.busy == short_time(wish.frequency), Fault::Busy)?;
    hold(rec.frequency == wish.frequency, Fault::Frequency)
}

// The seven bits, and where the display and the counter stand.
fn judge_panel(rec: Record, wish: Wish) -> Result<(), Fault> {
    hold(rec.function == wish.function, Fault::Function)?;
    hold(rec.control == wish.control, Fault::Control)?;
    hold(rec.entry == wish.entry, Fault::Entry)?;
    hold(rec.shift == wish.shift, Fault::Shift)?;
    hold(rec.counter == Counter::Display(wish.cursor), Fault::Counter)
}

// The register is fresh with the byte of the cursor's cell.
fn judge_register(rec: Record, cursor: u8, memory: &[u8; 144]) -> Result<(), Fault> {
    let shown = memory.get(usize::from(cursor)).copied();
    hold(rec.fresh, Fault::Stale)?;
    hold(shown == Some(rec.reg), Fault::Register)
}

// The counter whose cell is at this place. The planner has its own: this one judges it.
fn counter_at(place: u8) -> Counter {
    if place < 80 {
        Counter::Display(place)
    } else {
        Counter::Pattern(place - 80)
    }
}

// The cell that demand 3 excepts: the counter's, where a data write is half sent.
fn excepted(start: Record) -> Option<Counter> {
    matches!(start.half, Half::DataWrite(_)).then_some(start.counter)
}

// Every cell, in its order.
fn judge_cells(named: Named, start: Record, memory: &[u8; 144]) -> Result<(), Fault> {
    let excepted = excepted(start);
    for (place, byte) in (0..144u8).zip(memory) {
        let is_right = if named.has(place) {
            *byte == wished_byte(place)
        } else {
            *byte == first_byte(place) || excepted == Some(counter_at(place))
        };
        hold(is_right, Fault::Cell(place))?;
    }
    Ok(())
}

// The first fault of a run as it left the controller, if there is one.
pub fn judge(run: &Run, bench: &Bench) -> Result<(), Fault> {
    hold(!bench.refused, Fault::Refused)?;
    judge_bus(bench.rec, run.wish)?;
    judge_panel(bench.rec, run.wish)?;
    judge_register(bench.rec, run.wish.cursor, &bench.memory)?;
    judge_cells(run.named, run.start, &bench.memory)
}
