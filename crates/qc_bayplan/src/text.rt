//! Texts in segments.

ghost use Rattle.std.specs.Prelude.{◌≡◌, find, filter, reverse, IfOk};
ghost use Rattle.qc_edifact.specs.Cuts.{part_of};
ghost use Rattle.qc_bayplan.specs.Places.{is_no_blank, past_blanks, trimmed};
ghost use Rattle.qc_bayplan.specs.Courses.{is_number};

use qc_edifact::Segment;
use qc_num::{OutOfMemory, are_digits, value_of_digits};
use std::alloc::Global;

/// The bytes of a component.
pub(crate) fn text_of(
    alloc: Global,
    segment: &Segment<'_>,
    element: u16,
    component: u16,
) -> Result<Vec<u8>, OutOfMemory>
    ensures { IfOk result (λ text. text.items ≡ part_of segment.now element component) }
{
    Ok(segment.part(element, component).collect(alloc)?)
}

/// The bytes that are no blanks.
pub(crate) fn without_blanks(alloc: Global, text: &[u8]) -> Result<Vec<u8>, OutOfMemory>
    ensures { IfOk result (λ kept. kept.items ≡ filter is_no_blank text.now) }
{
    Ok(text.iter().copied().filter(|b| *b != b' ').collect(alloc)?)
}

/// The first byte that is no blank.
pub(crate) fn first_visible(text: &[u8]) -> Option<u8>
    ensures { result ≡ find is_no_blank text.now }
{
    text.iter().copied().find(|b| *b != b' ')
}

/// The text from its first byte on that is no blank.
fn past_blanks(text: &[u8]) -> &[u8]
    ensures { result.now ≡ past_blanks text.now }
{
    let mut rest = text;
    while let Some((first, others)) = rest.split_first() {
        if *first != b' ' {
            return rest;
        }
        rest = others;
    }
    rest
}

/// The text up to its last byte that is no blank.
fn up_to_blanks(text: &[u8]) -> &[u8]
    ensures { result.now ≡ reverse (past_blanks (reverse text.now)) }
{
    let mut rest = text;
    while let Some((last, others)) = rest.split_last() {
        if *last != b' ' {
            return rest;
        }
        rest = others;
    }
    rest
}

/// The text without blanks at both ends.
pub(crate) fn trimmed(text: &[u8]) -> &[u8]
    ensures { result.now ≡ trimmed text.now }
{
    up_to_blanks(past_blanks(text))
}

/// Whether the text is 1 to 9 digits of this number.
pub(crate) fn is_number(number: u32, text: &[u8]) -> bool
    ensures { result ≡ is_number number text.now }
{
    are_digits(text)
        && 1 <= text.len()
        && text.len() <= 9
        && value_of_digits(text) == u64::from(number)
}
