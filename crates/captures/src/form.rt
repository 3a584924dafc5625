// The form of a capture's text, word by word: what may stand next.
ghost use Rattle.std.specs.Prelude.{◌≡◌, false, MatchOption};
ghost use Rattle.captures.specs.Form.{after, changes_come, changing, code_comes, is_change, is_scope_kind, is_var_type, is_whole};
ghost use Rattle.captures.specs.Form.{digit_said, level_of, level_said, number_said, name_comes, opened, past, Says, stamp_said};
ghost use Rattle.captures.specs.declared.form.Phase.TheVariants as Phase;

use crate::words::{is_plain, place_in};

// What comes next: a section of the definitions, a part of one, stamps and changes, or changes and an end. The bool says whether
// the timescale has been.
#[derive(Clone, Copy, PartialEq, Eq)]
pub enum Phase {
    Section(bool),
    Scale,
    ScaleUnit,
    ScopeKind(bool),
    ScopeName(bool),
    VarType(bool),
    VarSize(bool),
    VarCode(bool),
    VarName(bool),
    Close(bool),
    Ending,
    Changes,
    Dump,
    Wrong,
}

impl Phase {
    // Whether a code comes next.
    pub fn code_comes(self) -> bool
        ensures { result ≡ code_comes self }
    {
        matches!(self, Phase::VarCode(_))
    }

    // Whether the definitions are over: changes can come.
    pub fn changes_come(self) -> bool
        ensures { result ≡ changes_come self }
    {
        matches!(self, Phase::Changes | Phase::Dump)
    }

    // Whether the text can end here.
    pub fn is_whole(self) -> bool
        ensures { result ≡ is_whole self }
    {
        matches!(self, Phase::Changes)
    }
}

// The level of a line: at 0, at 1, or at x or z, which tell nothing. The definitions and their theorems are over 0, 1 and 2, so
// that the clauses say `number_of_level`.
#[derive(Clone, Copy, PartialEq, Eq)]
pub enum Level {
    Low,
    High,
    Open,
}

// A scalar change: a level and the code that gets it.
#[derive(Clone, Copy)]
pub struct Change<'a> {
    pub level: Level,
    pub code: &'a [u8],
}

fn is_scope_kind(word: &[u8]) -> bool
    ensures { result ≡ is_scope_kind word.now }
{
    place_in(b"module task function begin fork", word).is_some()
}

fn is_var_type(word: &[u8]) -> bool
    ensures { result ≡ is_var_type word.now }
{
    let types =
        b"event integer parameter reg supply0 supply1 time tri triand trior trireg tri0 tri1 wand wire wor";
    place_in(types, word).is_some()
}

// What a word opens between the definitions' sections.
#[tactic(auto, using(crate::proofs::Laws::Words::same_pointwise), unfolding(crate::specs::Form::opened))]
fn open(scaled: bool, word: &[u8]) -> Phase
    ensures { result ≡ opened scaled word.now }
{
    if word == b"$scope".as_slice() {
        Phase::ScopeKind(scaled)
    } else if word == b"$var".as_slice() {
        Phase::VarType(scaled)
    } else if word == b"$upscope".as_slice() {
        Phase::Close(scaled)
    } else if word == b"$timescale".as_slice() {
        if scaled { Phase::Wrong } else { Phase::Scale }
    } else if word == b"$enddefinitions".as_slice() {
        if scaled { Phase::Ending } else { Phase::Wrong }
    } else {
        Phase::Wrong
    }
}

#[tactic(auto, using(crate::proofs::Laws::Words::same_pointwise), unfolding(crate::specs::Form::after))]
fn scale(word: &[u8]) -> Phase
    ensures { result ≡ after Phase.Scale word.now }
{
    if word == b"1us".as_slice() {
        Phase::Close(true)
    } else if word == b"1".as_slice() {
        Phase::ScaleUnit
    } else {
        Phase::Wrong
    }
}

// One more digit behind a number; none where it is no digit or takes the number past the limit.
#[tactic(auto, using(crate::proofs::Laws::Form::digit_other, crate::proofs::Laws::Form::digit_large, crate::proofs::Laws::Form::digit_more))]
fn with_digit(value: u32, byte: u8) -> Option<u32>
    ensures { result ≡ digit_said value byte }
{
    if byte.is_ascii_digit() {
        u32::try_from(value as u64 * 10 + (byte - b'0') as u64).ok()
    } else {
        None
    }
}

// The number that digits say, at most 4,294,967,295.
fn number_of(digits: &[u8]) -> Option<u32>
    ensures { result ≡ number_said digits.now }
{
    let mut value = 0;
    for byte in digits {
        value = with_digit(value, *byte)?;
    }
    Some(value)
}

// The stamp that a word says: `#` and a number.
#[tactic(auto, using(crate::proofs::Laws::Form::stamp_none, crate::proofs::Laws::Form::stamp_short, crate::proofs::Laws::Form::stamp_other, crate::proofs::Laws::Form::stamp_number))]
pub fn stamp_of(word: &[u8]) -> Option<u32>
    ensures { result ≡ stamp_said word.now }
{
    let (first, digits) = word.split_first()?;
    if *first == b'#' && !digits.is_empty() {
        number_of(digits)
    } else {
        None
    }
}

#[tactic(auto, unfolding(crate::specs::Form::level_of))]
fn level_of(byte: u8) -> Option<Level>
    ensures { level_said result ≡ level_of byte }
{
    match byte {
        b'0' => Some(Level::Low),
        b'1' => Some(Level::High),
        b'x' | b'X' | b'z' | b'Z' => Some(Level::Open),
        _ => None,
    }
}

// The scalar change that a word says.
#[tactic(auto, using(crate::proofs::Laws::Form::change_none, crate::proofs::Laws::Form::change_short, crate::proofs::Laws::Form::change_other, crate::proofs::Laws::Form::change_says))]
pub fn change_of(word: &[u8]) -> Option<Change<'_>>
    ensures { MatchOption result (is_change word.now ≡ false) (λ change. Says word.now change.level change.code.now) }
{
    let (first, code) = word.split_first()?;
    let level = level_of(*first)?;
    if code.is_empty() {
        None
    } else {
        Some(Change { level, code })
    }
}

// What stands after a stamp or a change.
#[tactic(auto, unfolding(crate::specs::Form::changing))]
fn after_change(word: &[u8], stamps: bool, next: Phase) -> Phase
    ensures { result ≡ changing word.now stamps next }
{
    if change_of(word).is_some() || stamps && stamp_of(word).is_some() {
        next
    } else {
        Phase::Wrong
    }
}

// What stands after a word that is not empty and plain.
#[tactic(auto, using(crate::proofs::Laws::Words::same_pointwise), unfolding(crate::specs::Form::after))]
fn after_word(phase: Phase, word: &[u8]) -> Phase
    ensures { result ≡ after phase word.now }
{
    let end = word == b"$end".as_slice();
    match phase {
        Phase::Section(scaled) => open(scaled, word),
        Phase::Scale => scale(word),
        Phase::ScaleUnit if word == b"us".as_slice() => Phase::Close(true),
        Phase::ScopeKind(scaled) if is_scope_kind(word) => Phase::ScopeName(scaled),
        Phase::ScopeName(scaled) if !end => Phase::Close(scaled),
        Phase::VarType(scaled) if is_var_type(word) => Phase::VarSize(scaled),
        Phase::VarSize(scaled) if word == b"1".as_slice() => Phase::VarCode(scaled),
        Phase::VarCode(scaled) if !end => Phase::VarName(scaled),
        Phase::VarName(scaled) if !end => Phase::Close(scaled),
        Phase::Close(scaled) if end => Phase::Section(scaled),
        Phase::Ending if end => Phase::Changes,
        Phase::Changes if word == b"$dumpvars".as_slice() => Phase::Dump,
        Phase::Changes => after_change(word, true, Phase::Changes),
        Phase::Dump if end => Phase::Changes,
        Phase::Dump => after_change(word, false, Phase::Dump),
        _ => Phase::Wrong,
    }
}

// The same, where an empty word says nothing and a byte outside 21h to 7Eh is wrong.
#[tactic(auto, unfolding(crate::specs::Form::past))]
pub fn pass(phase: Phase, word: &[u8]) -> Phase
    ensures { result ≡ past phase word.now }
{
    if word.is_empty() {
        phase
    } else if is_plain(word) {
        after_word(phase, word)
    } else {
        Phase::Wrong
    }
}

// The same, where the stamp that the word says is known: where stamps come, one leaves us in the phase.
pub fn pass_stamp(phase: Phase, word: &[u8], stamp: Option<u32>) -> Phase
    requires { stamp ≡ stamp_said word.now }
    ensures { result ≡ past phase word.now }
{
    if stamp.is_some() && phase.is_whole() {
        phase
    } else {
        pass(phase, word)
    }
}
