// Sends plans to the controller, cut and whole.
ghost use Rattle.std.specs.Prelude.{◌≤◌, length};

use crate::cells::{cells_by, first_byte, wished_byte};
use crate::wishes::Named;
use controller::{Answer, Record, transfer_in};
use planner::{Wish, plan};
use std::fmt;

// One run: the wish with the cells that it names, and its plan; the record that the controller starts from; how many
// transfers are sent before the first cut, and how many of the plan begun anew before the second. The wish and the start
// have numbers, by which the report names them.
#[derive(Clone, Copy)]
pub struct Run<'a> {
    pub wish_number: usize,
    pub wish: Wish,
    pub named: Named,
    pub plan: &'a [[u8; 6]],
    pub start_number: usize,
    pub start: Record,
    pub first: usize,
    pub second: usize,
}

impl fmt::Display for Run<'_> {
    fn fmt<W: fmt::Write>(&self, f: &mut fmt::Formatter<W>) -> fmt::Result {
        write!(
            f,
            "wish {}  kHz {}",
            self.wish_number, self.wish.frequency.khz
        )?;
        write!(
            f,
            "  start {}  cut {}  then {}",
            self.start_number, self.first, self.second
        )
    }
}

// The plan of a wish, laid out in this room. No plan is refused or has more than 468 records; one that did would not be played at
// all, so that every run of it is wrong.
pub fn lay_out(wish: Wish, named: Named, room: &mut [u8; 2808]) -> &[[u8; 6]]
    ensures { length result.now ≤ 468 }
{
    let marks = cells_by(|place| u8::from(named.has(place)));
    let values = cells_by(wished_byte);
    let count = plan(wish, &marks, &values, room).unwrap_or(0);
    let (records, _) = room.as_chunks();
    match records.get(..count) {
        Some(planned) => planned,
        None => &[],
    }
}

// The controller on the way, with its memory: the transfers sent so far, and whether one of them was refused as busy. That is a
// flag, since a run goes on behind a refusal.
#[derive(Drop)]
pub struct Bench {
    pub rec: Record,
    pub memory: [u8; 144],
    pub sent: u64,
    pub refused: bool,
}

impl Bench {
    fn new(rec: Record) -> Bench {
        Bench {
            rec,
            memory: cells_by(first_byte),
            sent: 0,
            refused: false,
        }
    }

    // One record of the plan, sent exactly as planned: kind, byte, and the wait with its lowest byte first.
    fn send(&mut self, [kind, byte, a, b, c, d]: [u8; 6]) {
        let wait = u32::from_le_bytes([a, b, c, d]);
        let told = transfer_in(&mut self.rec, &mut self.memory, kind, byte, wait);
        self.sent = self.sent.wrapping_add(1);
        self.refused = self.refused || told.answer == Answer::Busy;
    }

    // The first records of the plan, as many as this.
    fn play(&mut self, plan: &[[u8; 6]], count: usize) {
        for record in plan.iter().take(count) {
            self.send(*record);
        }
    }
}

// A run from its start to the end of the whole plan: how it leaves the controller.
pub fn play_run(run: &Run) -> Bench {
    let mut bench = Bench::new(run.start);
    bench.play(run.plan, run.first);
    bench.play(run.plan, run.second);
    bench.play(run.plan, run.plan.len());
    bench
}
