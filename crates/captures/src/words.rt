// The words of a text.
ghost use Rattle.std.specs.Prelude.{◌≡◌, drop, position};
ghost use Rattle.std.specs.List.{position_or_len};
ghost use Rattle.std.specs.Iterator.{YieldsFirstRef, item_count};
ghost use Rattle.captures.specs.Words.{is_blank, is_plain, same, words};

// Whether a byte parts words: space, tab, newline or carriage return. By `||`: with `matches!` the compiler makes of it five
// instructions more for each byte of a word, a tenth more in all for a capture of many changes.
#[tactic(auto, unfolding(crate::specs::Words::is_blank))]
fn is_blank(byte: u8) -> bool
    ensures { result ≡ is_blank byte }
{
    byte == b' ' || byte == b'\t' || byte == b'\n' || byte == b'\r'
}

// Where the first word of a text ends: at a blank, or at the text's end.
fn word_end(text: &[u8]) -> usize
    ensures { result ≡ position_or_len is_blank text.now }
{
    text.iter()
        .position(|byte| is_blank(*byte))
        .unwrap_or(text.len())
}

// What is left of some bytes without so many at their start.
pub fn behind(bytes: &[u8], start: usize) -> &[u8]
    ensures { result.now ≡ drop start bytes.now }
{
    bytes.get(start..).unwrap_or(&[])
}

// The words of a text that are still to come. `split` would give an empty word behind a last blank, which `Words.words` has not.
#[derive(Clone, Drop)]
pub struct Words<'a> {
    rest: &'a [u8],
}

impl<'a> Iterator for Words<'a> {
    type Item = &'a [u8];

    ghost next_gives = { YieldsFirstRef (λ w. words w.rest.now) };

    ghost remaining = { item_count (λ w. words w.rest.now) };

    fn next(&mut self) -> Option<&'a [u8]> {
        if self.rest.is_empty() {
            return None;
        }
        let text = self.rest;
        let end = word_end(text);
        self.rest = behind(text, end + 1);
        Some(&text[..end])
    }
}

// The words of a text, each up to a blank or to the text's end.
pub fn words_of(text: &[u8]) -> Words<'_>
    ensures { result.rest.now ≡ text.now }
{
    Words { rest: text }
}

// Whether every byte of a word is one of 21h to 7Eh.
#[tactic(auto, using(crate::proofs::Laws::Words::plain_all))]
pub fn is_plain(word: &[u8]) -> bool
    ensures { result ≡ is_plain word.now }
{
    word.iter().all(|byte| (0x21..=0x7E).contains(byte))
}

// Where a word stands among the words of a list, from 0.
pub fn place_in(list: &[u8], word: &[u8]) -> Option<usize>
    ensures { result ≡ position (λ other. same other word.now) (words list.now) }
{
    words_of(list).position(|other| other == word)
}
