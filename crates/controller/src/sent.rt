// A transfer as it is sent, and its six bytes in a plan: kind, byte, wait little-endian.
ghost use Rattle.controller.specs.Promises.{LittleEndianPromise, NumberFromPromise, SixBytesPromise};

// The number of its kind (`Kind`), its byte, and the wait since the transfer before it. `kind` stays a number, since one above 3
// can be sent too and is answered 3 (`TransferPromise`).
#[derive(Clone, Copy, PartialEq, Eq)]
pub struct Sent {
    pub kind: u8,
    pub byte: u8,
    pub wait: u32,
}

// A number as four bytes, the lowest first. These three stay functions, since their promises name them (`LittleEndianPromise`).
pub fn little_endian(number: u32) -> [u8; 4]
    ensures { LittleEndianPromise number result }
{
    number.to_le_bytes()
}

// The number of four bytes, the lowest first.
pub fn number_from(first: u8, second: u8, third: u8, fourth: u8) -> u32
    ensures { NumberFromPromise first second third fourth result }
{
    u32::from_le_bytes([first, second, third, fourth])
}

// The six bytes of a transfer.
pub fn six_bytes(sent: Sent) -> [u8; 6]
    ensures { SixBytesPromise sent result }
{
    let [first, second, third, fourth] = little_endian(sent.wait);
    [sent.kind, sent.byte, first, second, third, fourth]
}
