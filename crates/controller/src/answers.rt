// The answers of all calls, and their numbers in the table "What each number says".
ghost use Rattle.controller.specs.Promises.{IsDonePromise, IsRefusalPromise, NumberPromise};

// A name for each row of the table "What each number says", and its number there.
#[derive(Clone, Copy, PartialEq, Eq)]
pub enum Answer {
    Done = 0,
    Unsound = 1,
    NotWhole = 2,
    BadTransfer = 3,
    Busy = 4,
    FirstHalf = 5,
    NoCell = 6,
    StaleRead = 7,
    CrossedHalves = 8,
    CounterOff = 9,
    BadSize = 10,
    OutputShort = 11,
    NotWish = 13,
    OutsideSubset = 14,
    SignalMissing = 15,
    BadKind = 16,
    BadByte = 17,
    BadWait = 18,
    NoNewline = 19,
    LevelUnknown = 28,
}

// The number of an answer in the table. This and the two tests below stay functions: their promises name them (`NumberPromise`).
pub fn number(answer: Answer) -> u8
    ensures { NumberPromise answer result }
{
    answer as u8
}

// Whether the answer is 0.
pub fn is_done(answer: Answer) -> bool
    ensures { IsDonePromise answer result }
{
    answer == Answer::Done
}

// Whether the answer is a refusal: all but 0, 5, 7 and 8 are.
#[tactic(auto, unfolding(crate::specs::Answers::is_refusal))]
pub fn is_refusal(answer: Answer) -> bool
    ensures { IsRefusalPromise answer result }
{
    !matches!(
        answer,
        Answer::Done | Answer::FirstHalf | Answer::StaleRead | Answer::CrossedHalves
    )
}
