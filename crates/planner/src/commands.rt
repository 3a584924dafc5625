// The commands of a plan, in their order.
ghost use Rattle.std.specs.Prelude.{◌≡◌, ◌+◌, ◌*◌, ◌<◌, ◌≤◌, replicate};
ghost use Rattle.std.proofs.lemmas.List.Edits.{sets};
ghost use Rattle.planner.specs.Pen.{Wrote};
ghost use Rattle.planner.specs.Plan.{address_byte, cell, cells_below, counter_at, encoded, ending, instruction, opening};
ghost use Rattle.planner.specs.Plan.{set_up, times_at, worth};

use crate::pen::{Buffer, Pen, put, sent, times_at};
use crate::wish::{Cells, Wish, follows_marked, is_marked};
use controller::{Control, Counter, Entry, Function, Kind, address_set};

// Four single transfers that bring any controller to width 4 with no half waiting. Their waits and the 100 after them serve at
// every frequency; the times of what follows are those of the wish.
#[tactic(auto, unfolding(crate::specs::Plan::encoded))]
pub fn open(out: &mut Buffer, wish: Wish) -> Pen
    ensures { (result ≡ record { at = 4; wait = 100; times = times_at wish.frequency })
        × (out.new ≡ sets out.old 0 (encoded opening)) }
{
    put(out, 0, sent(Kind::InstructionWrite, 0x30, 15_000));
    put(out, 1, sent(Kind::InstructionWrite, 0x30, 4_100));
    put(out, 2, sent(Kind::InstructionWrite, 0x30, 100));
    put(out, 3, sent(Kind::InstructionWrite, 0x20, 100));
    Pen {
        at: 4,
        wait: 100,
        times: times_at(wish.frequency),
    }
}

// A bit that is worth this much in its byte.
#[tactic(auto, unfolding(crate::specs::Plan::worth))]
fn worth_of(value: u8, bit: bool) -> u8
    ensures { result ≡ worth value bit }
{
    if bit { value } else { 0 }
}

#[tactic(auto, using(crate::proofs::Laws::Wish::worth_small))]
fn function_byte(function: Function) -> u8
    ensures { result ≡ 0x20 + worth 0x08 function.n + worth 0x04 function.f }
{
    0x20 + worth_of(0x08, function.n) + worth_of(0x04, function.f)
}

// Function Set, display off, counting up without shift, Home.
pub fn set_up(out: &mut Buffer, pen: &mut Pen, wish: Wish)
    requires { pen.old.at + 8 ≤ 468 }
    ensures { Wrote (set_up wish) pen.old pen.new out.old out.new }
{
    pen.send(out, Kind::InstructionWrite, function_byte(wish.function));
    pen.send(out, Kind::InstructionWrite, 0x08);
    pen.send(out, Kind::InstructionWrite, 0x06);
    pen.send(out, Kind::InstructionWrite, 0x02);
}

// 18h as often as the shift: each brings the display one cell to the left.
pub fn shift_left(out: &mut Buffer, pen: &mut Pen, shift: u8)
    requires { pen.old.at + 2 * shift ≤ 468 }
    ensures { Wrote (replicate shift (instruction 0x18)) pen.old pen.new out.old out.new }
{
    for _ in 0..shift {
        pen.send(out, Kind::InstructionWrite, 0x18);
    }
}

// The counter on the cell at this place: display cells first, then pattern cells.
#[tactic(auto, unfolding(crate::specs::Plan::counter_at))]
fn counter_at(place: u8) -> Counter
    ensures { result ≡ counter_at place }
{
    if place < 80 {
        Counter::Display(place)
    } else {
        Counter::Pattern(place - 80)
    }
}

// The address set for the cell at this place.
#[tactic(auto, unfolding(crate::specs::Plan::address_byte))]
fn address_byte(n: bool, place: u8) -> u8
    ensures { result ≡ address_byte n place }
{
    address_set(n, counter_at(place))
}

// A marked cell, with an address set first unless the cell before it in the same memory is marked.
fn write_cell(out: &mut Buffer, pen: &mut Pen, n: bool, marks: &Cells, values: &Cells, place: u8)
    requires { (pen.old.at + 4 ≤ 468) × (place < 144) }
    ensures { Wrote (cell n marks.now values.now place) pen.old pen.new out.old out.new }
{
    let at = place as usize;
    if is_marked(marks, at) {
        if !follows_marked(marks, at) {
            pen.send(out, Kind::InstructionWrite, address_byte(n, place));
        }
        pen.send(out, Kind::DataWrite, values[at]);
    }
}

// The marked cells, rising.
pub fn write_cells(out: &mut Buffer, pen: &mut Pen, n: bool, marks: &Cells, values: &Cells)
    requires { pen.old.at ≤ 170 }
    ensures { Wrote (cells_below n marks.now values.now 144) pen.old pen.new out.old out.new }
{
    for place in 0..144 {
        write_cell(out, pen, n, marks, values, place);
    }
}

#[tactic(auto, using(crate::proofs::Laws::Wish::worth_small))]
fn entry_byte(entry: Entry) -> u8
    ensures { result ≡ 0x04 + worth 0x02 entry.id + worth 0x01 entry.s }
{
    0x04 + worth_of(0x02, entry.id) + worth_of(0x01, entry.s)
}

#[tactic(auto, using(crate::proofs::Laws::Wish::worth_small))]
fn control_byte(control: Control) -> u8
    ensures { result ≡ 0x08 + worth 0x04 control.d + worth 0x02 control.c + worth 0x01 control.b }
{
    0x08 + worth_of(0x04, control.d) + worth_of(0x02, control.c) + worth_of(0x01, control.b)
}

// Entry Mode, the cursor's address and Display Control.
pub fn end(out: &mut Buffer, pen: &mut Pen, wish: Wish)
    requires { pen.old.at + 6 ≤ 468 }
    ensures { Wrote (ending wish) pen.old pen.new out.old out.new }
{
    pen.send(out, Kind::InstructionWrite, entry_byte(wish.entry));
    pen.send(
        out,
        Kind::InstructionWrite,
        address_byte(wish.function.n, wish.cursor),
    );
    pen.send(out, Kind::InstructionWrite, control_byte(wish.control));
}
