// What the calls return: the answer's number, and 256 times a byte, a count or a length.
ghost use Rattle.std.specs.Prelude.{◌≡◌, ◌+◌, ◌*◌, ◌%◌, ◌≤◌};
ghost use Rattle.controller.specs.Answers.{number_of};
ghost use Rattle.lines.specs.Writing.{answer_in, length_in};

use controller::{Answer, number};

// A refusal tells its number alone.
pub fn refused(answer: Answer) -> u32
    ensures { result ≡ number_of answer }
{
    number(answer) as u32
}

pub fn returned(answer: Answer, byte: u8) -> u32
    ensures { result ≡ number_of answer + 256 * byte }
{
    number(answer) as u32 + 256 * byte as u32
}

// A count or a length, or the refusal.
pub fn counted(told: Result<usize, Answer>) -> u32
    requires { length_in told ≤ 468 }
    ensures { result ≡ number_of (answer_in told) + 256 * length_in told }
{
    match told {
        Ok(count) => number(Answer::Done) as u32 + 256 * count as u32,
        Err(answer) => refused(answer),
    }
}

// A refusal, with 65,536 times an offset in a line beside.
pub fn placed(answer: Answer, offset: usize) -> u32
    requires { offset ≤ 15 }
    ensures { result ≡ number_of answer + 65536 * offset }
{
    refused(answer) + 65_536 * offset as u32
}

// As `counted`, in 64 bits, where a length below 2^56 has room: C has one width for each.
pub fn counted_far(told: Result<usize, Answer>) -> u64
    ensures { result ≡ number_of (answer_in told) + 256 * (length_in told % 72057594037927936) }
{
    match told {
        Ok(length) => number(Answer::Done) as u64 + 256 * (length as u64 % 72_057_594_037_927_936),
        Err(answer) => number(answer) as u64,
    }
}
