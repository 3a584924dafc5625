// The records from which the plans are played: both widths, each kind of half, busy at its limits, S=1.
use controller::{
    Control, Counter, Entry, Frequency, Function, Half, Record, after_reset, long_time,
};

// A record with all that a plan has to undo: S=1, which shifts the display at each data write, I/D=0, the display on,
// and the last shift.
fn unruly(frequency: Frequency) -> Record {
    Record {
        wide: false,
        function: Function { n: false, f: true },
        control: Control {
            d: true,
            c: true,
            b: true,
        },
        entry: Entry { id: false, s: true },
        shift: 79,
        reg: 0xA5,
        fresh: true,
        busy: 0,
        ..after_reset(frequency)
    }
}

// Width 4 with an instruction's high four bits waiting.
fn instruction_halved(high: u8, frequency: Frequency) -> Record {
    Record {
        half: Half::InstructionWrite(high),
        ..unruly(frequency)
    }
}

// Width 4 with a data write of 4h and whatever comes waiting, into the counter's cell.
fn write_halved(counter: Counter, frequency: Frequency) -> Record {
    Record {
        counter,
        fresh: false,
        half: Half::DataWrite(4),
        ..unruly(frequency)
    }
}

// Width 4 with a data read waiting that took the register's byte, fresh or stale.
fn read_halved(fresh: bool, frequency: Frequency) -> Record {
    Record {
        counter: Counter::Pattern(0),
        fresh,
        half: Half::DataRead(0xA5),
        ..unruly(frequency)
    }
}

// The starting records on a module of this frequency. The plan's first byte, 30h, gives the instruction halves 0h, 1h, 2h,
// 3h, 8h and Fh a 3h each: Home, a move of the counter, width 4, width 8, a display address, and one that has no cell. The
// third is busy for the long time, and the status half at busy's upper limit, which only a status read may meet.
pub fn starts(frequency: Frequency) -> [Record; 14] {
    [
        after_reset(frequency),
        Record {
            wide: true,
            counter: Counter::Pattern(63),
            ..unruly(frequency)
        },
        Record {
            counter: Counter::Display(39),
            fresh: false,
            busy: long_time(frequency),
            ..unruly(frequency)
        },
        instruction_halved(0x0, frequency),
        instruction_halved(0x1, frequency),
        instruction_halved(0x2, frequency),
        instruction_halved(0x3, frequency),
        instruction_halved(0x8, frequency),
        instruction_halved(0xF, frequency),
        write_halved(Counter::Display(40), frequency),
        write_halved(Counter::Pattern(20), frequency),
        Record {
            counter: Counter::Display(79),
            busy: 10_000,
            half: Half::StatusRead(0xCF),
            ..unruly(frequency)
        },
        read_halved(true, frequency),
        read_halved(false, frequency),
    ]
}
