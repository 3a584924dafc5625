// The instruction table of document 002. docs/DECODER.md has its rows and the cases of `decode` side by side.
ghost use Rattle.std.specs.Prelude.{◌≡◌, ◌<◌};
ghost use Rattle.controller.specs.Instruction.{bit, shift_of, decoded};

use crate::cells::{Acg, Add};
use crate::record::{Control, Entry, Function};

// A row of the table, with what its lower bits say. `MoveCursor` and `ShiftDisplay` hold R/L: true is right.
#[derive(Clone, Copy)]
pub enum Instruction {
    Nothing,
    Clear,
    Home,
    SetEntry(Entry),
    SetControl(Control),
    MoveCursor(bool),
    ShiftDisplay(bool),
    SetFunction(bool, Function),
    PatternAddress(Acg),
    DisplayAddress(Add),
}

// Whether the bit that is worth this much is set.
#[tactic(auto, unfolding(crate::specs::Instruction::bit))]
fn has(worth: u8, byte: u8) -> bool
    requires { 0 < worth }
    ensures { result ≡ bit worth byte }
{
    byte / worth % 2 == 1
}

// The bits of Function Set below DL: N and F.
#[tactic(auto, unfolding(crate::specs::Instruction::bit))]
fn function_of(byte: u8) -> Function
    ensures { result ≡ record { n = bit 0x08 byte; f = bit 0x04 byte } }
{
    Function {
        n: has(0x08, byte),
        f: has(0x04, byte),
    }
}

// The bits of Display Control: D, C and B.
#[tactic(auto, unfolding(crate::specs::Instruction::bit))]
fn control_of(byte: u8) -> Control
    ensures { result ≡ record { d = bit 0x04 byte; c = bit 0x02 byte; b = bit 0x01 byte } }
{
    Control {
        d: has(0x04, byte),
        c: has(0x02, byte),
        b: has(0x01, byte),
    }
}

// The bits of Entry Mode: I/D and S.
#[tactic(auto, unfolding(crate::specs::Instruction::bit))]
fn entry_of(byte: u8) -> Entry
    ensures { result ≡ record { id = bit 0x02 byte; s = bit 0x01 byte } }
{
    Entry {
        id: has(0x02, byte),
        s: has(0x01, byte),
    }
}

// Cursor or display shift: S/C says which of the two, R/L where to.
fn shift_of(byte: u8) -> Instruction
    ensures { result ≡ shift_of byte }
{
    let right = has(0x04, byte);
    if has(0x08, byte) {
        Instruction::ShiftDisplay(right)
    } else {
        Instruction::MoveCursor(right)
    }
}

// The instruction by its leading zero bits: a case a row, in the table's order, each under its bits as the table has them.
#[tactic(auto, unfolding(crate::specs::Instruction::row, crate::specs::Instruction::decoded))]
pub fn decode(byte: u8) -> Instruction
    ensures { result ≡ decoded byte }
{
    match byte.leading_zeros() {
        // Clear:                    0 0 0 0 0 0 0 1
        7 => Instruction::Clear,
        // Home:                     0 0 0 0 0 0 1 *
        6 => Instruction::Home,
        // Entry mode:               0 0 0 0 0 1 I/D S
        5 => Instruction::SetEntry(entry_of(byte)),
        // Display control:          0 0 0 0 1 D C B
        4 => Instruction::SetControl(control_of(byte)),
        // Cursor or display shift:  0 0 0 1 S/C R/L * *
        3 => shift_of(byte),
        // Function set:             0 0 1 DL N F * *
        2 => Instruction::SetFunction(has(0x10, byte), function_of(byte)),
        // Pattern address:          0 1 ACG
        1 => Instruction::PatternAddress(Acg(byte - 0x40)),
        // Display address:          1 ADD
        0 => Instruction::DisplayAddress(Add(byte - 0x80)),
        // 00h has eight, and no row.
        _ => Instruction::Nothing,
    }
}
