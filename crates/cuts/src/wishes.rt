// The wishes whose plans are played.
use controller::{Control, Entry, Frequency, Function};
use planner::Wish;

// Which of the 144 cells a wish names.
#[derive(Clone, Copy)]
pub enum Named {
    Nothing,
    All,
    // Across the middle of the display memory.
    Middle,
    EverySecond,
    // The last display cell, the first pattern cell and the last one.
    Edges,
    // Two cells and a gap, over and over.
    Pairs,
    Only(u8),
}

impl Named {
    pub fn has(self, place: u8) -> bool {
        match self {
            Named::Nothing => false,
            Named::All => true,
            Named::Middle => 30 <= place && place < 50,
            Named::EverySecond => place % 2 == 0,
            Named::Edges => matches!(place, 79 | 80 | 143),
            Named::Pairs => place % 3 != 2,
            Named::Only(one) => place == one,
        }
    }
}

// A wish on a module of whatever frequency, which is given later: how the panel is to stand, and which cells are named.
#[derive(Clone, Copy)]
pub struct Case {
    function: Function,
    control: Control,
    entry: Entry,
    shift: u8,
    cursor: u8,
    pub named: Named,
}

impl Case {
    // How the panel is to stand, on a module of this frequency.
    pub fn wish(&self, frequency: Frequency) -> Wish {
        Wish {
            function: self.function,
            control: self.control,
            entry: self.entry,
            shift: self.shift,
            cursor: self.cursor,
            frequency,
        }
    }
}

const ONE_LINE: Function = Function { n: false, f: false };

const ONE_TALL_LINE: Function = Function { n: false, f: true };

const TWO_LINES: Function = Function { n: true, f: false };

// D, C and B: the display off, on, and on with the cursor, the blinking or both.
const OFF: Control = Control {
    d: false,
    c: false,
    b: false,
};

const ON: Control = Control {
    d: true,
    c: false,
    b: false,
};

const CURSOR: Control = Control {
    d: true,
    c: true,
    b: false,
};

const BLINK: Control = Control {
    d: true,
    c: false,
    b: true,
};

const BOTH: Control = Control {
    d: true,
    c: true,
    b: true,
};

// I/D, and S where the display shifts.
const UP: Entry = Entry { id: true, s: false };

const UP_SHIFTED: Entry = Entry { id: true, s: true };

const DOWN: Entry = Entry {
    id: false,
    s: false,
};

const DOWN_SHIFTED: Entry = Entry { id: false, s: true };

// The first is the plain wish of P12, and the second has the longest plan that there can be. 79 and 39 are the longest shifts
// of one line and of two.
pub const CASES: [Case; 8] = [
    Case {
        function: TWO_LINES,
        control: ON,
        entry: UP,
        shift: 0,
        cursor: 0,
        named: Named::Nothing,
    },
    Case {
        function: ONE_LINE,
        control: CURSOR,
        entry: UP,
        shift: 79,
        cursor: 0,
        named: Named::All,
    },
    Case {
        function: ONE_TALL_LINE,
        control: ON,
        entry: UP_SHIFTED,
        shift: 1,
        cursor: 39,
        named: Named::Middle,
    },
    Case {
        function: TWO_LINES,
        control: BOTH,
        entry: DOWN_SHIFTED,
        shift: 39,
        cursor: 79,
        named: Named::EverySecond,
    },
    Case {
        function: TWO_LINES,
        control: OFF,
        entry: UP,
        shift: 0,
        cursor: 40,
        named: Named::Edges,
    },
    Case {
        function: TWO_LINES,
        control: BLINK,
        entry: UP_SHIFTED,
        shift: 20,
        cursor: 41,
        named: Named::Pairs,
    },
    Case {
        function: ONE_LINE,
        control: CURSOR,
        entry: DOWN,
        shift: 40,
        cursor: 78,
        named: Named::Only(100),
    },
    Case {
        function: TWO_LINES,
        control: ON,
        entry: DOWN_SHIFTED,
        shift: 2,
        cursor: 40,
        named: Named::Only(40),
    },
];
