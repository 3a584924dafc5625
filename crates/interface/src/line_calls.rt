// Session lines, written and read.
ghost use Rattle.std.specs.Prelude.{◌≤◌};
ghost use Rattle.interface.specs.Filling.{Fills};
ghost use Rattle.interface.specs.LineCalls.{stored_line};
ghost use Rattle.interface.specs.Promises.{YaropeskReadLinePromise, YaropeskWriteLinePromise};

use crate::told::{counted, placed, refused};
use controller::{Answer, six_bytes};
use lines::{Line, read_line, write_line};

// The line of a transfer, into a buffer of at least 16 bytes.
pub fn yaropesk_write_line(kind: u8, byte: u8, wait: u32, out: &mut [u8]) -> u32
    ensures { YaropeskWriteLinePromise kind byte wait out.old result out.new }
{
    counted(write_line(kind, byte, wait, out))
}

// The transfer of a line that was read, six bytes: kind, byte, wait little-endian.
#[tactic(auto, unfolding(crate::specs::LineCalls::stored_line))]
fn store_line(line: Line, out: &mut [u8]) -> u32
    requires { line.length ≤ 468 }
    ensures { Fills (stored_line line out.old) result out.new }
{
    if out.len() < 6 {
        return refused(Answer::OutputShort);
    }
    out[..6].copy_from_slice(&six_bytes(line.sent));
    counted(Ok(line.length))
}

// The line at the start of a text, as six bytes, or the offset of its fault.
pub fn yaropesk_read_line(text: &[u8], out: &mut [u8]) -> u32
    ensures { YaropeskReadLinePromise text.now out.old result out.new }
{
    match read_line(text) {
        Ok(line) => store_line(line, out),
        Err(bad) => placed(bad.answer, bad.offset),
    }
}
