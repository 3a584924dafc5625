// The kinds of transfers.
ghost use Rattle.std.specs.Prelude.{MatchOption, true, false, ◌≡◌};
ghost use Rattle.controller.specs.Bus.{bad_transfer};
ghost use Rattle.controller.specs.Kind.{kind_number};

// A transfer's kind, each with its number on the bus and in a plan.
#[derive(Clone, Copy, PartialEq, Eq)]
pub enum Kind {
    InstructionWrite = 0,
    DataWrite = 1,
    StatusRead = 2,
    DataRead = 3,
}

// The kind of a transfer, or nothing for a number above 3 and for a read with a byte.
#[tactic(auto, unfolding(crate::specs::Bus::bad_transfer))]
pub fn kind_of(number: u8, byte: u8) -> Option<Kind>
    ensures { MatchOption result (bad_transfer number byte ≡ true)
        (λ kind. (kind_number kind ≡ number) × (bad_transfer number byte ≡ false)) }
{
    match (number, byte) {
        (0, _) => Some(Kind::InstructionWrite),
        (1, _) => Some(Kind::DataWrite),
        (2, 0) => Some(Kind::StatusRead),
        (3, 0) => Some(Kind::DataRead),
        _ => None,
    }
}
