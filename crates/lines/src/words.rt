// The answers in words.
ghost use Rattle.lines.specs.Promises.{PutAnswerPromise, WordsOfPromise};

use crate::text::put_text;
use controller::Answer;

// An answer, in the words of the table "What each number says". No `Display`: the answer is of the crate beneath, which has no
// words.
#[tactic(auto, unfolding(crate::specs::Words::answer_words))]
pub fn words_of(answer: Answer) -> &'static str
    ensures { WordsOfPromise answer result.now }
{
    match answer {
        Answer::Done => "done",
        Answer::Unsound => "record unsound",
        Answer::NotWhole => "memory, marks or values not 144 long",
        Answer::BadTransfer => "kind above 3, or a read with a byte",
        Answer::Busy => "busy",
        Answer::FirstHalf => "first half taken",
        Answer::NoCell => "display address without a cell",
        Answer::StaleRead => "stale read, done",
        Answer::CrossedHalves => "crossed halves, done",
        Answer::CounterOff => "counter on no cell",
        Answer::BadSize => "columns or lines out of range",
        Answer::OutputShort => "output too short",
        Answer::NotWish => "not a wish",
        Answer::OutsideSubset => "text outside the subset",
        Answer::SignalMissing => "needed signal missing",
        Answer::BadKind => "kind or its tab",
        Answer::BadByte => "byte or its tab",
        Answer::BadWait => "wait",
        Answer::NoNewline => "no newline where one must stand",
        Answer::LevelUnknown => "x or z on a needed line at a fall",
    }
}

// The same, put into a buffer. No other crate calls it any more; its promise keeps it (`PutAnswerPromise`).
pub fn put_answer(out: &mut [u8], at: usize, answer: Answer) -> usize
    ensures { PutAnswerPromise out.old at answer result out.new }
{
    put_text(out, at, words_of(answer).as_bytes())
}
