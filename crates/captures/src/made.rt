// A session as a capture: one E pulse a transfer. The lines are read once to see how the session ends and to measure the capture,
// and once more to write it.
ghost use Rattle.std.specs.Prelude.{◌≡◌, ◌≤◌, length};
ghost use Rattle.lines.specs.Text.{put, putting};
ghost use Rattle.captures.specs.Made.{made_change, made_header, made_lines, made_pulse, made_stamp};
ghost use Rattle.captures.specs.MadeWalk.{Captured, pulse_size};
ghost use Rattle.captures.specs.Promises.{CapturePromise};

use crate::falls::add_up;
use crate::words::behind;
use controller::{Answer, Sent};
use lines::{first, hex_digit, put_byte, put_number, put_text, read_line};

// Puts what fits of the definitions at the start; returns their length.
fn put_header(out: &mut [u8]) -> usize
    ensures { (result ≡ length made_header) × (out.new ≡ (putting (put 0 out.old) made_header).out) }
{
    let first = put_text(
        out,
        0,
        b"$timescale 1 us $end\n$var wire 1 a RS $end\n$var wire 1 b RW $end\n$var wire 1 c E $end\n",
    );
    let second = put_text(
        out,
        first,
        b"$var wire 1 d DB0 $end\n$var wire 1 e DB1 $end\n$var wire 1 f DB2 $end\n$var wire 1 g DB3 $end\n",
    );
    let third = put_text(
        out,
        second,
        b"$var wire 1 h DB4 $end\n$var wire 1 i DB5 $end\n$var wire 1 j DB6 $end\n$var wire 1 k DB7 $end\n",
    );
    put_text(out, third, b"$enddefinitions $end\n");
    291
}

// Puts a stamp, and returns the place after it.
fn put_stamp(stamp: u32, out: &mut [u8], at: usize) -> usize
    ensures { put result out.new ≡ putting (put at out.old) (made_stamp stamp) }
{
    let number = put_byte(out, at, b'#');
    let end = put_number(out, number, stamp as u64);
    put_byte(out, end, b'\n')
}

// Puts the change of a code to the last bit of a number.
fn put_change(value: u8, code: u8, out: &mut [u8], at: usize) -> usize
    ensures { put result out.new ≡ putting (put at out.old) (made_change value code) }
{
    let letter = put_byte(out, at, hex_digit(value % 2));
    let end = put_byte(out, letter, code);
    put_byte(out, end, b'\n')
}

// Puts the lines that say the kind and the byte, one by one as `made_lines` has them.
fn put_lines(sent: Sent, out: &mut [u8], at: usize) -> usize
    ensures { put result out.new ≡ putting (put at out.old) (made_lines sent) }
{
    let rw = put_change(sent.kind, b'a', out, at);
    let db0 = put_change(sent.kind / 2, b'b', out, rw);
    let db1 = put_change(sent.byte, b'd', out, db0);
    let db2 = put_change(sent.byte / 2, b'e', out, db1);
    let db3 = put_change(sent.byte / 4, b'f', out, db2);
    let db4 = put_change(sent.byte / 8, b'g', out, db3);
    let db5 = put_change(sent.byte / 16, b'h', out, db4);
    let db6 = put_change(sent.byte / 32, b'i', out, db5);
    let db7 = put_change(sent.byte / 64, b'j', out, db6);
    put_change(sent.byte / 128, b'k', out, db7)
}

// Puts what fits of the pulse whose E falls at this stamp at a place; returns the pulse's length.
fn put_pulse(stamp: u32, sent: Sent, out: &mut [u8], at: usize) -> usize
    ensures { (result ≡ length (made_pulse stamp sent)) × (result ≤ pulse_size)
        × (out.new ≡ (putting (put at out.old) (made_pulse stamp sent)).out) }
{
    let mut text = [0u8; 60];
    let lines = put_stamp(stamp.wrapping_sub(1), &mut text, 0);
    let up = put_lines(sent, &mut text, lines);
    let fall = put_change(1, b'c', &mut text, up);
    let down = put_stamp(stamp, &mut text, fall);
    let length = put_change(0, b'c', &mut text, down);
    put_text(out, at, first(&text, length));
    length
}

// Reads a session to its end or its bad line, and puts what fits of its capture into the buffer: the capture's length, or the
// bad line's answer. The first fall is at stamp 1 and the first wait, so that the rise before it is at no stamp below 0.
fn walk(session: &[u8], out: &mut [u8]) -> Result<usize, Answer>
    ensures { Captured session.now out.old result out.new }
{
    let mut length = put_header(out);
    let mut rest = session;
    let mut stamp = 1u32;
    // No index is counted: where the next line begins is known once this one is read.
    while !rest.is_empty() {
        let line = read_line(rest).map_err(|bad| bad.answer)?;
        stamp = stamp.wrapping_add(line.sent.wait);
        length = add_up(length, put_pulse(stamp, line.sent, out, length));
        rest = behind(rest, line.length);
    }
    Ok(length)
}

// A session's text as a capture: its length, or the refusal.
pub fn capture(session: &[u8], out: &mut [u8]) -> Result<usize, Answer>
    ensures { CapturePromise session.now out.old result out.new }
{
    let length = walk(session, &mut [])?;
    if out.len() < length {
        return Err(Answer::OutputShort);
    }
    walk(session, out)
}
