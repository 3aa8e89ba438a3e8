//! The nearest of some words.

use qc_num::OutOfMemory;
use std::alloc::Global;
use strsim::osa_distance;

/// How many letters a near word may be away, and one where it is short.
const MOST_EDITS: usize = 2;

/// A word of fewer letters is short.
const SHORT: usize = 6;

/// Whether a word is another one, but for the case of letters, signs between words and a few letters.
pub fn is_near(alloc: Global, word: &str, other: &str) -> Result<bool, OutOfMemory> {
    if word.len() > 40 || word.len().abs_diff(other.len()) > MOST_EDITS {
        return Ok(false);
    }
    if word.eq_ignore_ascii_case(other) {
        return Ok(true);
    }
    let most = if other.len() < SHORT { 1 } else { MOST_EDITS };
    let edits = osa_distance(alloc, word, other)?;
    Ok(edits <= most && edits.saturating_add(1) < other.len())
}

/// The first of the words that is near.
pub fn nearest<'a>(
    alloc: Global,
    word: &str,
    others: &[&'a str],
) -> Result<Option<&'a str>, OutOfMemory> {
    for other in others {
        if is_near(alloc, word, other)? {
            return Ok(Some(*other));
        }
    }
    Ok(None)
}
