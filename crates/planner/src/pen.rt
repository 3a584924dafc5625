// Writes records into the lent buffer, one after the other.
ghost use Rattle.std.specs.Prelude.{◌∷◌, [], ◌≡◌, ◌+◌, ◌*◌, ◌<◌, ◌≤◌};
ghost use Rattle.std.proofs.lemmas.List.Edits.{sets};
ghost use Rattle.controller.specs.Kind.{kind_number};
ghost use Rattle.controller.specs.Sent.{six_bytes};
ghost use Rattle.planner.specs.Pen.{Wrote};
ghost use Rattle.planner.specs.Plan.{time_of, times_at};

use controller::{Frequency, Kind, Sent, long_time, short_time, six_bytes};

// Room for the longest plan: 468 records of six bytes.
pub type Buffer = [u8; 2808];

// The two times that a command can take, worked out once for a plan.
#[derive(Clone, Copy)]
pub struct Times {
    pub short: u32,
    pub long: u32,
}

// Where the next record goes, counted in records, the time that the last instruction takes, and the times of those to come.
#[derive(Clone, Copy)]
pub struct Pen {
    pub at: usize,
    pub wait: u32,
    pub times: Times,
}

pub fn times_at(frequency: Frequency) -> Times
    ensures { result ≡ times_at frequency }
{
    Times {
        short: short_time(frequency),
        long: long_time(frequency),
    }
}

// A transfer of this kind, as it is sent.
pub fn sent(kind: Kind, byte: u8, wait: u32) -> Sent
    ensures { result ≡ record { kind = kind_number kind; byte = byte; wait = wait } }
{
    Sent {
        kind: kind as u8,
        byte,
        wait,
    }
}

// One record, its six bytes. Stored one by one: `copy_from_slice` takes a plan three times as long (2.0 for 0.7 microseconds).
pub fn put(out: &mut Buffer, at: usize, sent: Sent)
    requires { at < 468 }
    ensures { out.new ≡ sets out.old (at * 6) (six_bytes sent) }
{
    let from = at * 6;
    let [kind, byte, first, second, third, fourth] = six_bytes(sent);
    out[from] = kind;
    out[from + 1] = byte;
    out[from + 2] = first;
    out[from + 3] = second;
    out[from + 4] = third;
    out[from + 5] = fourth;
}

// The time that a command takes: of those sent in two halves, only Home is long.
#[tactic(auto, unfolding(crate::specs::Plan::time_of))]
fn time_of(times: Times, kind: Kind, byte: u8) -> u32
    ensures { result ≡ time_of times (record { kind = kind_number kind; byte = byte }) }
{
    if kind == Kind::InstructionWrite && byte == 0x02 {
        times.long
    } else {
        times.short
    }
}

// The buffer is lent beside the pen: a pen that held the loan would say in each contract that it is still the same one.
impl Pen {
    // A command in two halves: the first waits for the instruction before it, the second 1.
    pub fn send(&mut self, out: &mut Buffer, kind: Kind, byte: u8)
        requires { self.old.at + 2 ≤ 468 }
        ensures { Wrote (record { kind = kind_number kind; byte = byte } ∷ []) self.old self.new out.old out.new }
    {
        put(out, self.at, sent(kind, byte / 16 * 16, self.wait));
        put(out, self.at + 1, sent(kind, byte % 16 * 16, 1));
        *self = Pen {
            at: self.at + 2,
            wait: time_of(self.times, kind, byte),
            ..*self
        };
    }
}
