// The falls of E, each told as a session line.
ghost use Rattle.std.specs.Prelude.{◌≡◌, ◌+◌, ◌<◌, ◌≤◌, ◌&&◌, false, length};
ghost use Rattle.controller.specs.Bus.{bad_transfer};
ghost use Rattle.lines.specs.Line.{line};
ghost use Rattle.lines.specs.Text.{put, putting};
ghost use Rattle.captures.specs.Falls.{fall_at, falls};
ghost use Rattle.captures.specs.Form.{number_of_level, numbers_of};
ghost use Rattle.captures.specs.Import.{bus_byte, bus_open, byte_of, kind_of, unknown_at, wait_from};
ghost use Rattle.captures.specs.Import.{bit as bit_of};
ghost use Rattle.captures.specs.Import.{four as four_of};
ghost use Rattle.captures.specs.Walk.{fall_with, longer, no_tally, scan_in, since, tally_in, telling, telling_one, told};

use crate::form::Level;
use crate::scan::Scan;
use lines::{first, put_text, write_line};

// What is counted of the falls: the last one's stamp, whether a needed line was at x or z, and the length of their lines.
#[derive(Clone, Copy)]
pub struct Tally {
    pub last: Option<u32>,
    pub unknown: bool,
    pub length: usize,
}

impl Tally {
    // Nothing is counted yet.
    pub fn new() -> Self
        ensures { tally_in result ≡ no_tally }
    {
        Tally {
            last: None,
            unknown: false,
            length: 0,
        }
    }
}

#[tactic(auto, unfolding(crate::specs::Import::bit))]
fn bit(level: Level) -> u8
    ensures { (result ≡ bit_of (number_of_level level)) × (result ≤ 1) }
{
    (level == Level::High) as u8
}

// Four lines as a number, the first worth 1. Lines go by their number in the table of the request: 0 RS, 1 RW, 2 E, 3 to 10 DB0
// to DB7.
#[tactic(auto, unfolding(crate::specs::Import::four))]
fn four(first: Level, second: Level, third: Level, fourth: Level) -> u8
    ensures { (result
        ≡ four_of (number_of_level first) (number_of_level second) (number_of_level third) (number_of_level fourth))
        × (result ≤ 15) }
{
    bit(first) + 2 * bit(second) + 4 * bit(third) + 8 * bit(fourth)
}

#[tactic(auto, unfolding(crate::specs::Import::bus_byte))]
fn bus_byte(levels: &[Level; 11]) -> u8
    ensures { result ≡ bus_byte (numbers_of levels.now) }
{
    four(levels[3], levels[4], levels[5], levels[6])
        + 16 * four(levels[7], levels[8], levels[9], levels[10])
}

// The kind: instruction write 0, data write 1 (RS), status read 2 (RW), data read 3 (both).
#[tactic(auto, unfolding(crate::specs::Import::kind_of))]
fn kind_of(levels: &[Level; 11]) -> u8
    ensures { result ≡ kind_of (numbers_of levels.now) }
{
    bit(levels[0]) + 2 * bit(levels[1])
}

// The byte: a read's is written 00.
#[tactic(auto, unfolding(crate::specs::Import::byte_of))]
fn byte_of(levels: &[Level; 11]) -> u8
    ensures { result ≡ byte_of (numbers_of levels.now) }
{
    if levels[1] == Level::High {
        0
    } else {
        bus_byte(levels)
    }
}

// Whether one of DB0 to DB7 is at x or z.
#[tactic(auto, unfolding(crate::specs::Import::bus_open, crate::specs::Import::one_open))]
fn bus_open(levels: &[Level; 11]) -> bool
    ensures { result ≡ bus_open (numbers_of levels.now) }
{
    levels[3..].contains(&Level::Open)
}

// Whether a needed line is at x or z; DB0 to DB7 for writes only.
#[tactic(auto, unfolding(crate::specs::Import::unknown_at))]
pub fn unknown_at(levels: &[Level; 11]) -> bool
    ensures { result ≡ unknown_at (numbers_of levels.now) }
{
    match levels[1] {
        Level::Open => true,
        Level::Low => levels[0] == Level::Open || bus_open(levels),
        Level::High => levels[0] == Level::Open,
    }
}

// A length more; past 2^63, which no buffer has, it stays (`longer`, where `saturating_add` would go on to 2^64).
#[tactic(auto, unfolding(crate::specs::Walk::longer))]
pub fn add_up(length: usize, more: usize) -> usize
    requires { more < 9223372036854775808 }
    ensures { result ≡ longer length more }
{
    if length < 9_223_372_036_854_775_808 {
        length + more
    } else {
        length
    }
}

// Puts what fits of a transfer's line at a place; returns the line's length. The kind is the number that `write_line` takes.
fn put_line(kind: u8, byte: u8, wait: u32, out: &mut [u8], at: usize) -> usize
    requires { bad_transfer kind byte ≡ false }
    ensures { (result ≡ length (line kind byte wait)) × (result ≤ 16)
        × (out.new ≡ (putting (put at out.old) (line kind byte wait)).out) }
{
    let mut text = [0u8; 16];
    let length = write_line(kind, byte, wait, &mut text).unwrap_or(0);
    put_text(out, at, first(&text, length));
    length
}

// The wait of a fall: from the fall before it, or none where it is the first. A stamp has 32 bits and starts again from 0.
#[tactic(auto, unfolding(crate::specs::Import::wait_from))]
fn wait_of(tally: Tally, stamp: u32) -> u32
    ensures { result ≡ wait_from (since (tally_in tally) stamp) stamp }
{
    stamp.wrapping_sub(tally.last.unwrap_or(stamp))
}

// The tally with a fall more, its line put where the lines before it end.
fn tell(stamp: u32, levels: &[Level; 11], tally: Tally, out: &mut [u8]) -> Tally
    ensures { told (tally_in result) out.new
        ≡ telling_one (told (tally_in tally) out.old) (fall_with stamp (numbers_of levels.now)) }
{
    let length = put_line(
        kind_of(levels),
        byte_of(levels),
        wait_of(tally, stamp),
        out,
        tally.length,
    );
    Tally {
        last: Some(stamp),
        unknown: tally.unknown || unknown_at(levels),
        length: add_up(tally.length, length),
    }
}

// The tally where a stamp ends, or does not: with the fall there, if there is one.
pub fn tell_end(ended: bool, scan: &Scan, tally: Tally, out: &mut [u8]) -> Tally
    ensures { told (tally_in result) out.new
        ≡ telling (told (tally_in tally) out.old) (fall_at (ended && falls (scan_in scan.now)) (scan_in scan.now)) }
{
    match scan.fall() {
        Some(stamp) if ended => tell(stamp, &scan.levels, tally, out),
        _ => tally,
    }
}
