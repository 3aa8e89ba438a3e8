//! Short texts that are held in place.

ghost use Rattle.std.specs.Prelude.{◌≡◌, ◌+◌, ◌≤◌, [], ◌++◌, length, decimal, ℕ, List, take};
ghost use Rattle.std.specs.Fmt.{signed_decimal};

use itoa::Buffer;
use std::marker::Model;

/// A short text that is held in place: at most `N` bytes, and no memory is taken.
#[derive(Clone, Drop)]
pub struct Text<const N: usize> {
    bytes: [u8; N],
    len: usize,
}

impl<const N: usize> Model for Text<N> {
    ghost Value = { List ℕ };

    ghost view = { λ text. take text.len text.bytes };

    ghost invariant = { λ text. text.len ≤ N };
}

impl<const N: usize> Text<N> {
    /// The empty text.
    pub fn new() -> Text<N>
        ensures { result ≡ [] }
    {
        Text {
            bytes: [0u8; N],
            len: 0,
        }
    }

    /// The text of these bytes.
    pub fn of(bytes: &[u8]) -> Text<N>
        requires { length bytes.now ≤ N }
        ensures { result ≡ bytes.now }
    {
        let mut text = Text::new();
        text.push(bytes);
        text
    }

    /// Puts a piece behind the text.
    pub fn push(&mut self, piece: &[u8])
        requires { length self.old + length piece.now ≤ N }
        ensures text { self.new ≡ self.old ++ piece.now }
        ensures length { length self.new ≡ length self.old + length piece.now }
    {
        let end = self.len + piece.len();
        let bytes = &mut self.bytes[..];
        bytes[self.len..end].copy_from_slice(piece);
        self.len = end;
    }

    /// Puts a number behind the text, in plain decimal: at most 20 bytes.
    pub fn push_number(&mut self, number: u64)
        requires { length self.old + 20 ≤ N }
        ensures text { self.new ≡ self.old ++ decimal number }
        ensures length { length self.new ≤ length self.old + 20 }
    {
        self.push(Buffer::new().format(number).as_bytes());
    }

    /// Puts a whole number behind the text, with a minus sign where it is below 0: at most 20 bytes.
    pub fn push_signed(&mut self, number: i64)
        requires { length self.old + 20 ≤ N }
        ensures text { self.new ≡ self.old ++ signed_decimal number }
        ensures length { length self.new ≤ length self.old + 20 }
    {
        self.push(Buffer::new().format(number).as_bytes());
    }

    /// The text's bytes.
    pub fn as_bytes(&self) -> &[u8]
        ensures bytes { result.now ≡ self.now }
        ensures length { length self.now ≤ N }
    {
        let bytes = &self.bytes[..];
        &bytes[..self.len]
    }
}
