// Reading standard input.
ghost use Rattle.std.specs.Prelude.{◌<◌, ◌≤◌, OnOk, length, take};
ghost use Rattle.std.specs.Io.KnownBytes.{Consumes, IsAtEnd};
ghost use Rattle.telling.specs.Input.{read_of};

use std::io::Read;

// A read failed: so many bytes stand at the start of the buffer.
#[derive(Clone, Copy, PartialEq, Eq)]
pub struct Unread {
    pub length: usize,
}

// Reads until the input ends, a read fails or the buffer is full, and tells how many bytes stand at the start of the buffer. What
// is put there are the next bytes of the input, none of them lost; where no read fails and the buffer has room left, nothing is
// left of the input. std's `read_to_end` needs memory of its own, and its `read_exact` does not tell how much came before the
// end.
pub fn read_input<R: Read>(from: &mut R, input: &mut [u8]) -> Result<usize, Unread>
    ensures fits { read_of result ≤ length input.new }
    ensures bytes { Consumes (R.remaining from.old) (R.remaining from.new) (take (read_of result) input.new) }
    ensures end { OnOk result (read_of result < length input.new → IsAtEnd (R.remaining from.new)) }
{
    let mut length = 0;
    // No index is counted: a read tells how many bytes it brought.
    while length < input.len() {
        let Ok(more) = from.read(&mut input[length..]) else {
            return Err(Unread { length });
        };
        if more == 0 {
            break;
        }
        length += more;
    }
    Ok(length)
}
