//! The words of a line.

ghost use Rattle.std.specs.Prelude.{◌≡◌};
ghost use Rattle.std.specs.List.{after_first, before_first};
ghost use Rattle.qc_lines.specs.Lines.{is_space};

use crate::line::index_of;

/// What stands ahead of the first space of a text, and what stands behind it. Where there is none, that is all
/// of it and nothing.
pub fn next_word(text: &[u8]) -> (&[u8], &[u8])
    ensures word { result.0.now ≡ before_first is_space text.now }
    ensures rest { result.1.now ≡ after_first is_space text.now }
{
    match index_of(text, b' ') {
        Some(at) => (&text[..at], &text[at + 1..]),
        None => (text, &[]),
    }
}
