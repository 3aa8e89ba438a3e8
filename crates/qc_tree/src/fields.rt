//! Numbers in plain decimal, each after one space.

ghost use Rattle.std.specs.Prelude.{◌≡◌, ◌<◌, ◌≤◌, ◌++◌, [], ℕ, true, not, position, MatchOption};
ghost use Rattle.std.specs.Char.{is_ascii_digit};
ghost use Rattle.std.specs.List.{list_all};
ghost use Rattle.qc_tree.specs.Fields.{IsField, NoField, EndsDigits};

use qc_num::plain_number;

/// The number of at most so many digits that the text begins with, after one space, and what stands
/// behind it.
pub(crate) fn read_field(text: &[u8], most: usize) -> Option<(u64, &[u8])>
    requires some { 0 < most }
    requires fit { most ≤ 19 }
    ensures { MatchOption result (NoField text.now most)
        (λ read. IsField text.now most read.0 read.1.now) }
{
    let (first, behind) = text.split_first()?;
    if *first != b' ' {
        return None;
    }
    let (digits, rest) = split_digits(behind);
    let number = plain_number(digits, most)?;
    Some((number, rest))
}

/// The same where nothing stands behind it.
pub(crate) fn read_last(text: &[u8], most: usize) -> Option<u64>
    requires some { 0 < most }
    requires fit { most ≤ 19 }
    ensures { MatchOption result ((n : ℕ) → ¬ (IsField text.now most n []))
        (λ n. IsField text.now most n []) }
{
    let (number, rest) = read_field(text, most)?;
    if rest.is_empty() { Some(number) } else { None }
}

/// The digits at the front, and the rest.
fn split_digits(text: &[u8]) -> (&[u8], &[u8])
    ensures whole { text.now ≡ result.0.now ++ result.1.now }
    ensures digits { list_all is_ascii_digit result.0.now ≡ true }
    ensures rest { EndsDigits result.1.now }
{
    text.split_at(first_other(text).unwrap_or(text.len()))
}

/// The place of the first byte that is no digit.
fn first_other(text: &[u8]) -> Option<usize>
    ensures { result ≡ position (λ b. not (is_ascii_digit b)) text.now }
{
    text.iter().position(|b| !b.is_ascii_digit())
}
