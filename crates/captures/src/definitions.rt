// The definitions of a capture: which codes are declared, and which of them the eleven needed signals have.
ghost use Rattle.std.specs.Prelude.{◌≡◌, ◌<◌, position};
ghost use Rattle.captures.specs.Words.{same};
ghost use Rattle.captures.specs.Definitions.{blank_head, defined, named, names, placed};
ghost use Rattle.captures.specs.Walk.{head_in};

use crate::form::{Phase, pass};
use crate::words::place_in;

// The codes of the eleven lines, as they stand in the text; empty where a signal is not declared yet, since no code is empty.
pub type Codes<'a> = [&'a [u8]; 11];

// What has been read of the definitions: the phase, the code of the section at hand, the codes of the needed signals, and whether
// one of them was declared twice.
#[derive(Clone, Copy)]
pub struct Head<'a> {
    pub phase: Phase,
    pub code: &'a [u8],
    pub codes: Codes<'a>,
    pub twice: bool,
}

// The line of a needed signal.
#[tactic(auto, unfolding(crate::specs::Definitions::names))]
fn line_of(name: &[u8]) -> Option<usize>
    ensures { result ≡ position (λ needed. same needed name.now) names }
{
    place_in(b"RS RW E DB0 DB1 DB2 DB3 DB4 DB5 DB6 DB7", name)
}

impl<'a> Head<'a> {
    // Nothing is declared before the first word.
    pub fn new() -> Self
        ensures { head_in result ≡ blank_head }
    {
        Head {
            phase: Phase::Section(false),
            code: &[],
            codes: [&[]; 11],
            twice: false,
        }
    }

    // The code at hand is that of one of the lines.
    #[tactic(auto, unfolding(crate::specs::Definitions::placed))]
    fn place(&mut self, line: usize)
        requires { line < 11 }
        ensures { head_in self.new ≡ placed (head_in self.old) line }
    {
        self.twice |= !self.codes[line].is_empty();
        self.codes[line] = self.code;
    }

    // A name more: a needed one gets the code before it.
    #[tactic(auto, unfolding(crate::specs::Definitions::named))]
    fn name(&mut self, name: &[u8])
        ensures { head_in self.new ≡ named (head_in self.old) name.now }
    {
        if let Some(line) = line_of(name) {
            self.place(line);
        }
    }

    // A word more.
    #[tactic(auto, unfolding(crate::specs::Definitions::defined))]
    pub fn define(&mut self, word: &'a [u8])
        ensures { head_in self.new ≡ defined (head_in self.old) word.now }
    {
        if word.is_empty() {
            return;
        }
        let phase = self.phase;
        self.phase = pass(phase, word);
        match phase {
            Phase::VarCode(_) => self.code = word,
            Phase::VarName(_) => self.name(word),
            _ => {}
        }
    }
}
