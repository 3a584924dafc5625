// Two lines with the state that a repairer asks for.
ghost use Rattle.std.specs.Prelude.{◌≡◌, get_or};
ghost use Rattle.drawing.specs.State.{address_shown, bit_shown, counter_field, half_shown, last_fields, lines_shown};
ghost use Rattle.drawing.specs.State.{memory_shown, moving_line, on_off, read_shown, settings_line, state_byte};
ghost use Rattle.drawing.specs.State.{width_shown, write_shown};

use crate::grid::byte_in;
use crate::numbers::places;
use controller::{Counter, Half, Record, address_set, cell_of};
use lines::hex_digit;

// The display, `on` or `off`.
fn on_off(d: bool) -> [u8; 3]
    ensures { result ≡ on_off d }
{
    if d { *b"on " } else { *b"off" }
}

// The counter's memory.
fn memory_shown(counter: Counter) -> [u8; 7]
    ensures { result ≡ memory_shown counter }
{
    match counter {
        Counter::Display(_) => *b"display",
        Counter::Pattern(_) => *b"pattern",
    }
}

// A read's half: the letter of its kind, and its whole byte.
fn read_shown(letter: u8, byte: u8) -> [u8; 4]
    ensures { result ≡ read_shown letter byte }
{
    [letter, b' ', hex_digit(byte / 16), hex_digit(byte % 16)]
}

// A write's half: the letter of its kind, and its high four bits as they came over the bus, with 0h below.
fn write_shown(letter: u8, high: u8) -> [u8; 4]
    ensures { result ≡ write_shown letter high }
{
    [letter, b' ', hex_digit(high % 16), b'0']
}

// The half that waits.
fn half_shown(half: Half) -> [u8; 4]
    ensures { result ≡ half_shown half }
{
    match half {
        Half::Empty => *b"none",
        Half::InstructionWrite(high) => write_shown(b'I', high),
        Half::DataWrite(high) => write_shown(b'D', high),
        Half::StatusRead(byte) => read_shown(b'S', byte),
        Half::DataRead(byte) => read_shown(b'R', byte),
    }
}

// The lines that N drives. This and the next two stay: one function of a flag and two bytes would be an `if` by another name.
fn lines_shown(n: bool) -> u8
    ensures { result ≡ lines_shown n }
{
    if n { b'2' } else { b'1' }
}

// The width.
fn width_shown(wide: bool) -> u8
    ensures { result ≡ width_shown wide }
{
    if wide { b'8' } else { b'4' }
}

// A setting of one bit.
fn bit_shown(bit: bool) -> u8
    ensures { result ≡ bit_shown bit }
{
    if bit { b'1' } else { b'0' }
}

// The settings, and the oscillator.
#[tactic(auto, unfolding(crate::specs::Numbers::padded))]
fn settings_line(rec: Record) -> [u8; 66]
    ensures { result ≡ settings_line rec }
{
    let mut text = *b"width 8  lines 1  F 0  display off  C 0  B 0  I/D 1  S 0  250 kHz\n";
    text[6] = width_shown(rec.wide);
    text[15] = lines_shown(rec.function.n);
    text[20] = bit_shown(rec.function.f);
    text[38] = bit_shown(rec.control.c);
    text[43] = bit_shown(rec.control.b);
    text[50] = bit_shown(rec.entry.id);
    text[55] = bit_shown(rec.entry.s);
    text[58..61].copy_from_slice(&places::<3>(rec.frequency.khz as usize, b' '));
    text[31..34].copy_from_slice(&on_off(rec.control.d));
    text
}

// The counter's address, which its address set has below the bit that names the memory.
#[tactic(auto, unfolding(crate::specs::State::address_shown))]
fn address_shown(n: bool, counter: Counter) -> u8
    ensures { result ≡ address_shown n counter }
{
    match counter {
        Counter::Display(_) => address_set(n, counter) % 0x80,
        Counter::Pattern(_) => address_set(n, counter) % 0x40,
    }
}

// The counter: its memory, its cell, and the cell's address.
#[tactic(auto, unfolding(crate::specs::Numbers::padded))]
fn counter_field(n: bool, counter: Counter) -> [u8; 36]
    ensures { result ≡ counter_field n counter }
{
    let address = address_shown(n, counter);
    let mut text = *b"counter display cell  0, address 00h";
    text[33] = hex_digit(address / 16);
    text[34] = hex_digit(address % 16);
    text[21..23].copy_from_slice(&places::<2>(cell_of(counter) as usize, b' '));
    text[8..15].copy_from_slice(&memory_shown(counter));
    text
}

// The shift, the busy time and the half that waits.
#[tactic(auto, unfolding(crate::specs::Numbers::padded))]
fn last_fields(rec: Record) -> [u8; 34]
    ensures { result ≡ last_fields rec }
{
    let mut text = *b"  shift  0  busy     0  half none\n";
    text[29..33].copy_from_slice(&half_shown(rec.half));
    text[17..22].copy_from_slice(&places::<5>(rec.busy as usize, b' '));
    text[8..10].copy_from_slice(&places::<2>(rec.shift as usize, b' '));
    text
}

// A byte of the second line: the counter's field, then the others.
fn moving_byte(rec: Record, place: usize) -> u8
    ensures { result ≡ get_or (moving_line rec) place 0 }
{
    if place < 36 {
        counter_field(rec.function.n, rec.counter)[place]
    } else {
        byte_in(&last_fields(rec), place - 36)
    }
}

// A byte of the state's lines, whose fields stand at fixed places, so that two states can be compared one below the other.
#[tactic(auto, unfolding(crate::specs::State::state_lines))]
pub fn state_byte(rec: Record, place: usize) -> u8
    ensures { result ≡ state_byte rec place }
{
    if place < 66 {
        settings_line(rec)[place]
    } else {
        moving_byte(rec, place - 66)
    }
}
