// The controller's record: all that it keeps beside the memory.
ghost use Rattle.std.specs.Prelude.{◌≡◌};
ghost use Rattle.controller.specs.Promises.{AfterResetPromise, IsSoundPromise};
ghost use Rattle.controller.specs.Record.{half_sound, waited};

use crate::cells::Counter;
use crate::oscillator::{Frequency, fit, is_in_range};

// What Function Set sets, beside the width: N, two lines, and F, tall letters.
#[derive(Clone, Copy, PartialEq, Eq)]
pub struct Function {
    pub n: bool,
    pub f: bool,
}

// What Display Control sets: D, the display is on, C, the cursor shows, and B, its cell blinks.
#[derive(Clone, Copy, PartialEq, Eq)]
pub struct Control {
    pub d: bool,
    pub c: bool,
    pub b: bool,
}

// What Entry Mode sets: I/D, the counter goes up, and S, a data write shifts the display.
#[derive(Clone, Copy, PartialEq, Eq)]
pub struct Entry {
    pub id: bool,
    pub s: bool,
}

// The half transfer that waits at width 4: none, a write with its high four bits, or a read with its whole byte. Document 01
// names this form, so it is no Option of a kind and a byte.
#[derive(Clone, Copy, PartialEq, Eq)]
pub enum Half {
    Empty,
    InstructionWrite(u8),
    DataWrite(u8),
    StatusRead(u8),
    DataRead(u8),
}

// `wide`: width 8, and 4 where false. `reg`: the data register, which is `fresh` or stale. `busy`: microseconds left.
// `frequency`: that of the oscillator which is fitted.
#[derive(Clone, Copy, PartialEq, Eq)]
pub struct Record {
    pub wide: bool,
    pub function: Function,
    pub control: Control,
    pub entry: Entry,
    pub shift: u8,
    pub counter: Counter,
    pub reg: u8,
    pub fresh: bool,
    pub busy: u32,
    pub frequency: Frequency,
    pub half: Half,
}

// The microseconds that reset takes, and the most that busy can be.
const RESET_TIME: u32 = 10_000;

#[tactic(auto, unfolding(crate::specs::Record::half_sound))]
fn half_is_sound(wide: bool, busy: u32, half: Half) -> bool
    ensures { result ≡ half_sound wide busy half }
{
    match half {
        Half::Empty => true,
        Half::InstructionWrite(high) | Half::DataWrite(high) => !wide && high < 16 && busy == 0,
        Half::StatusRead(_) => !wide,
        Half::DataRead(_) => !wide && busy == 0,
    }
}

// Whether a record is one that a controller can have.
#[tactic(auto, unfolding(crate::specs::Record::sound, crate::specs::Record::reset_time))]
pub fn is_sound(rec: Record) -> bool
    ensures { IsSoundPromise rec result }
{
    rec.shift < 80
        && rec.counter.is_on_cell()
        && rec.busy <= RESET_TIME
        && is_in_range(rec.frequency)
        && half_is_sound(rec.wide, rec.busy, rec.half)
}

// The record that reset leaves where this oscillator is fitted: a frequency in range is kept, and 250 put for any other.
#[tactic(auto, unfolding(crate::specs::Record::reset_record, crate::specs::Record::reset_time))]
pub fn after_reset(frequency: Frequency) -> Record
    ensures { AfterResetPromise frequency result }
{
    Record {
        wide: true,
        function: Function { n: false, f: false },
        control: Control {
            d: false,
            c: false,
            b: false,
        },
        entry: Entry { id: true, s: false },
        shift: 0,
        counter: Counter::Display(0),
        reg: 0,
        fresh: false,
        busy: RESET_TIME,
        frequency: fit(frequency),
        half: Half::Empty,
    }
}

impl Record {
    // The wait comes off busy, not below 0.
    #[tactic(auto, using(crate::proofs::Laws::Record::less_waited))]
    pub(crate) fn waited(self, wait: u32) -> Record
        ensures { result ≡ waited wait self }
    {
        Record {
            busy: self.busy.saturating_sub(wait),
            ..self
        }
    }
}
