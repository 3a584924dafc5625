// A page: text that is put together piece by piece in a buffer of its own, without a heap. What does not fit is left out.
ghost use Rattle.std.specs.Prelude.{◌≡◌, ◌≤◌, ℕ, List, [], ◌∷◌, ◌++◌, length, take, IsOk};
ghost use Rattle.lines.specs.Digits.{hex_pair};

use crate::digits::hex_digit;
use std::fmt;
use std::fmt::Write;
use std::marker::Model;

/// A text of at most `N` bytes.
#[derive(Drop)]
pub struct Page<const N: usize> {
    bytes: [u8; N],
    length: usize,
}

// Clauses see the bytes that were put there.
impl<const N: usize> Model for Page<N> {
    ghost Value = { List ℕ };

    ghost view = { λ p. take p.length p.bytes };

    ghost invariant = { λ p. p.length ≤ N };
}

impl<const N: usize> Page<N> {
    pub fn new() -> Self
        ensures { result ≡ [] }
    {
        Page {
            bytes: [0; N],
            length: 0,
        }
    }

    // What was put there.
    pub fn text(&self) -> &[u8]
        ensures text { result.now ≡ self.now }
        ensures fits { length self.now ≤ N }
    {
        &self.bytes[..self.length]
    }

    // A text, or as much of it as fits.
    pub fn put_text(&mut self, text: &[u8])
        ensures { self.new ≡ take N (self.old ++ text.now) }
    {
        let start = self.length;
        let end = start + (N - start).min(text.len());
        let all = &mut self.bytes[..];
        all[start..end].copy_from_slice(&text[..end - start]);
        self.length = end;
    }

    // One byte.
    pub fn put_byte(&mut self, byte: u8)
        ensures { self.new ≡ take N (self.old ++ byte ∷ []) }
    {
        if self.length < N {
            self.bytes[self.length] = byte;
            self.length += 1;
        }
    }

    // A byte as two upper-case hex digits, as `put_hex` puts them.
    pub fn put_hex(&mut self, byte: u8)
        ensures { self.new ≡ take N (self.old ++ hex_pair byte) }
    {
        self.put_text(&[hex_digit(byte / 16), hex_digit(byte % 16)]);
    }
}

impl<const N: usize> Write for Page<N> {
    ghost write_str_gives = { λ old text new. new ≡ take N (old ++ text) };

    fn write_str(&mut self, text: &str) -> fmt::Result
        ensures ok { IsOk result }
        ensures text { self.new ≡ take N (self.old ++ text.now) }
    {
        self.put_text(text.as_bytes());
        Ok(())
    }
}
