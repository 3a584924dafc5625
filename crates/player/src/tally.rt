// The refusals of a session, counted line by line.
ghost use Rattle.std.specs.Prelude.{◌≡◌, ◌<◌};
ghost use Rattle.player.specs.Standing.{counting, no_refusal};

use controller::{Answer, is_refusal};

// How many transfers were refused, and the first one's line and answer: 0 and done where none was (`NoneIsFirst`, `FirstTold`).
#[derive(Clone, Copy)]
pub struct Tally {
    pub count: u64,
    pub first: u64,
    pub answer: Answer,
}

pub fn no_refusal() -> Tally
    ensures { result ≡ no_refusal }
{
    Tally {
        count: 0,
        first: 0,
        answer: Answer::Done,
    }
}

// With the answer to one line more.
#[tactic(auto, unfolding(crate::specs::Standing::counting))]
pub fn counted(tally: Tally, line: u64, answer: Answer) -> Tally
    requires { tally.count < line }
    ensures { result ≡ counting tally line answer }
{
    if !is_refusal(answer) {
        return tally;
    }
    if tally.count == 0 {
        return Tally {
            count: 1,
            first: line,
            answer,
        };
    }
    Tally {
        count: tally.count + 1,
        ..tally
    }
}
