// A controller's record as 24 bytes: the numbers of the header, each converted once, by a match.
ghost use Rattle.std.specs.Prelude.{◌≡◌, ◌∷◌, [], length};
ghost use Rattle.interface.specs.RecordBytes.{counter_from, frequency_from, half_byte, half_from, high_byte, is_record_long};
ghost use Rattle.interface.specs.RecordBytes.{low_byte};
ghost use Rattle.interface.specs.RecordBytes.{memory_byte, record_bytes, record_from, record_in, same_bytes, value_byte};
ghost use Rattle.interface.specs.RecordBytes.{width_byte};

use controller::{
    Control, Counter, Entry, Frequency, Function, Half, Record, cell_of, little_endian, number_from,
};

fn width_byte(wide: bool) -> u8
    ensures { result ≡ width_byte wide }
{
    if wide { 8 } else { 4 }
}

fn memory_byte(counter: Counter) -> u8
    ensures { result ≡ memory_byte counter }
{
    match counter {
        Counter::Display(_) => 0,
        Counter::Pattern(_) => 1,
    }
}

fn half_byte(half: Half) -> u8
    ensures { result ≡ half_byte half }
{
    match half {
        Half::Empty => 0,
        Half::InstructionWrite(_) => 1,
        Half::DataWrite(_) => 2,
        Half::StatusRead(_) => 3,
        Half::DataRead(_) => 4,
    }
}

fn value_byte(half: Half) -> u8
    ensures { result ≡ value_byte half }
{
    match half {
        Half::Empty => 0,
        Half::InstructionWrite(value) | Half::DataWrite(value) => value,
        Half::StatusRead(value) | Half::DataRead(value) => value,
    }
}

// A frequency as two bytes, the lower first.
pub fn khz_bytes(frequency: Frequency) -> [u8; 2]
    ensures { result ≡ low_byte frequency ∷ high_byte frequency ∷ [] }
{
    frequency.khz.to_le_bytes()
}

// The 24 bytes of a record.
fn bytes_of(rec: Record) -> [u8; 24]
    ensures { result ≡ record_bytes rec }
{
    let busy = little_endian(rec.busy);
    let khz = khz_bytes(rec.frequency);
    [
        width_byte(rec.wide),
        rec.function.n as u8,
        rec.function.f as u8,
        rec.control.d as u8,
        rec.control.c as u8,
        rec.control.b as u8,
        rec.entry.id as u8,
        rec.entry.s as u8,
        rec.shift,
        memory_byte(rec.counter),
        cell_of(rec.counter),
        rec.reg,
        rec.fresh as u8,
        half_byte(rec.half),
        value_byte(rec.half),
        0,
        busy[0],
        busy[1],
        busy[2],
        busy[3],
        khz[0],
        khz[1],
        0,
        0,
    ]
}

fn counter_from(memory: u8, cell: u8) -> Counter
    ensures { result ≡ counter_from memory cell }
{
    match memory {
        1 => Counter::Pattern(cell),
        _ => Counter::Display(cell),
    }
}

// The frequency of two bytes, the lower first.
pub fn frequency_from(low: u8, high: u8) -> Frequency
    ensures { result ≡ frequency_from low high }
{
    Frequency {
        khz: u16::from_le_bytes([low, high]),
    }
}

fn half_from(half: u8, value: u8) -> Half
    ensures { result ≡ half_from half value }
{
    match half {
        1 => Half::InstructionWrite(value),
        2 => Half::DataWrite(value),
        3 => Half::StatusRead(value),
        4 => Half::DataRead(value),
        _ => Half::Empty,
    }
}

// The record that 24 bytes say if they say one: a byte that a record cannot have is read as one that it can.
#[tactic(auto, unfolding(crate::specs::RecordBytes::record_from))]
pub fn record_from(bytes: &[u8]) -> Record
    requires { length bytes.now ≡ 24 }
    ensures { result ≡ record_from bytes.now }
{
    Record {
        wide: bytes[0] == 8,
        function: Function {
            n: bytes[1] == 1,
            f: bytes[2] == 1,
        },
        control: Control {
            d: bytes[3] == 1,
            c: bytes[4] == 1,
            b: bytes[5] == 1,
        },
        entry: Entry {
            id: bytes[6] == 1,
            s: bytes[7] == 1,
        },
        shift: bytes[8],
        counter: counter_from(bytes[9], bytes[10]),
        reg: bytes[11],
        fresh: bytes[12] == 1,
        busy: number_from(bytes[16], bytes[17], bytes[18], bytes[19]),
        frequency: frequency_from(bytes[20], bytes[21]),
        half: half_from(bytes[13], bytes[14]),
    }
}

// Whether bytes are these. Arrays and a loop: the length is known, so that nothing but the comparisons is left of the loop, where
// `==` would put the bytes into memory first, and every call from C pays for it.
pub fn are_same<const N: usize>(bytes: &[u8; N], own: &[u8; N]) -> bool
    ensures { result ≡ same_bytes bytes.now own.now }
{
    for at in 0..N {
        if bytes[at] != own[at] {
            return false;
        }
    }
    true
}

// Whether bytes are as many as a record has.
pub fn is_record_long(bytes: &[u8]) -> bool
    ensures { result ≡ is_record_long bytes.now }
{
    bytes.len() == 24
}

// The record that bytes say, if they say one.
#[tactic(auto, unfolding(crate::specs::RecordBytes::record_in, crate::specs::RecordBytes::record_as))]
pub fn read_record(bytes: &[u8]) -> Option<Record>
    ensures { result ≡ record_in bytes.now }
{
    let Ok(bytes) = <&[u8; 24]>::try_from(bytes) else {
        return None;
    };
    let rec = record_from(bytes);
    if are_same(bytes, &bytes_of(rec)) {
        Some(rec)
    } else {
        None
    }
}

// Writes a record over 24 bytes.
pub fn write_record(rec: Record, bytes: &mut [u8])
    requires { length bytes.old ≡ 24 }
    ensures { bytes.new ≡ record_bytes rec }
{
    bytes.copy_from_slice(&bytes_of(rec));
}
