// The 144 cells of the lent memory, display cells 0 to 79 and then pattern cells 0 to 63, and the addresses by which
// the bus names them.
ghost use Rattle.std.specs.Prelude.{true, ◌≡◌, ◌<◌, ◌≤◌};
ghost use Rattle.controller.specs.Cells.{acg_of_cell, add_of_cell, address_of, byte_under, cell_of_acg, cell_of_add, on_cell};
ghost use Rattle.controller.specs.Cells.{place_of, stepped, wrapped};
ghost use Rattle.controller.specs.Promises.{AddressSetPromise, CellOfPromise, LineLengthPromise};

// How many cells the lent memory has: 80 display cells and 64 pattern cells.
pub const CELLS: usize = 144;

// A lent memory whose length is checked.
pub type Memory = [u8; CELLS];

// A display address, as the bus carries it. It is never read as a pattern address.
#[derive(Clone, Copy, PartialEq, Eq)]
pub struct Add(pub u8);

// A pattern address, as the bus carries it. It is never read as a display address.
#[derive(Clone, Copy, PartialEq, Eq)]
pub struct Acg(pub u8);

// Where the next byte goes: a display cell 0 to 79 or a pattern cell 0 to 63.
#[derive(Clone, Copy, PartialEq, Eq)]
pub enum Counter {
    Display(u8),
    Pattern(u8),
}

// The counter's cell, in whichever memory.
pub fn cell_of(counter: Counter) -> u8
    ensures { CellOfPromise counter result }
{
    match counter {
        Counter::Display(cell) | Counter::Pattern(cell) => cell,
    }
}

// What the bus asks of a counter.
impl Counter {
    // Where the counter's cell stands among the 144.
    #[tactic(auto, unfolding(crate::specs::Cells::place_of))]
    pub(crate) fn place(self) -> usize
        ensures { result ≡ place_of self }
    {
        match self {
            Counter::Display(cell) => cell as usize,
            Counter::Pattern(cell) => 80 + cell as usize,
        }
    }

    // Whether it is a display cell 0 to 79 or a pattern cell 0 to 63.
    #[tactic(auto, unfolding(crate::specs::Cells::on_cell))]
    pub(crate) fn is_on_cell(self) -> bool
        ensures { result ≡ on_cell self }
    {
        match self {
            Counter::Display(cell) => cell < 80,
            Counter::Pattern(cell) => cell < 64,
        }
    }

    // The counter one cell up or down, within its memory.
    #[tactic(auto, unfolding(crate::specs::Cells::stepped, crate::specs::Cells::on_cell))]
    pub(crate) fn stepped(self, up: bool) -> Counter
        requires { on_cell self ≡ true }
        ensures { result ≡ stepped up self }
    {
        match self {
            Counter::Display(cell) => Counter::Display(wrap(80, up, cell)),
            Counter::Pattern(cell) => Counter::Pattern(wrap(64, up, cell)),
        }
    }

    // The counter's address, as a status read shows it.
    #[tactic(auto, unfolding(crate::specs::Cells::address_of, crate::specs::Cells::on_cell))]
    pub(crate) fn address(self, n: bool) -> u8
        requires { on_cell self ≡ true }
        ensures { result ≡ address_of n self }
    {
        match self {
            Counter::Display(cell) => add_of_cell(n, cell).0,
            Counter::Pattern(cell) => acg_of_cell(cell).0,
        }
    }
}

// The byte in the counter's cell.
#[tactic(auto, using(crate::proofs::Laws::Cells::place_below), unfolding(crate::specs::Cells::byte_under))]
pub fn load(memory: &Memory, counter: Counter) -> u8
    requires { on_cell counter ≡ true }
    ensures { result ≡ byte_under memory.now counter }
{
    memory[counter.place()]
}

// One up or one down in a ring of `size` cells.
#[tactic(auto, unfolding(crate::specs::Cells::wrapped))]
pub fn wrap(size: u8, up: bool, cell: u8) -> u8
    requires { (size ≤ 80) × (cell < size) }
    ensures { result ≡ wrapped size up cell }
{
    if up {
        (cell + 1) % size
    } else {
        (cell + size - 1) % size
    }
}

// A line's length, L.
pub fn line_length(n: bool) -> u8
    ensures { LineLengthPromise n result }
{
    if n { 40 } else { 80 }
}

// The one place where a display address becomes a cell, or nothing.
#[tactic(auto, unfolding(crate::specs::Cells::cell_of_add))]
pub fn cell_of_add(n: bool, add: Add) -> Option<u8>
    ensures { result ≡ cell_of_add n add }
{
    match (n, add.0) {
        (false, address @ 0x00..=0x4F) => Some(address),
        (true, address @ 0x00..=0x27) => Some(address),
        (true, address @ 0x40..=0x67) => Some(address - 24),
        _ => None,
    }
}

// The one place where a display cell becomes an address.
#[tactic(auto, unfolding(crate::specs::Cells::add_of_cell))]
pub fn add_of_cell(n: bool, cell: u8) -> Add
    requires { cell < 80 }
    ensures { result ≡ add_of_cell n cell }
{
    if n && 40 <= cell {
        Add(cell + 24)
    } else {
        Add(cell)
    }
}

// The one place where a pattern address becomes a cell.
pub fn cell_of_acg(acg: Acg) -> u8
    ensures { result ≡ cell_of_acg acg }
{
    acg.0 % 64
}

// The one place where a pattern cell becomes an address.
pub fn acg_of_cell(cell: u8) -> Acg
    ensures { result ≡ acg_of_cell cell }
{
    Acg(cell)
}

// The instruction that sets the counter to this cell. A number past the last cell of its memory is counted on from the first.
#[tactic(auto, using(crate::proofs::Laws::Cells::counted_below), unfolding(crate::specs::Cells::address_set))]
pub fn address_set(n: bool, counter: Counter) -> u8
    ensures { AddressSetPromise n counter result }
{
    match counter {
        Counter::Display(cell) => 0x80 + add_of_cell(n, cell % 80).0,
        Counter::Pattern(cell) => 0x40 + acg_of_cell(cell % 64).0,
    }
}
