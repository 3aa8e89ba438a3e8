//! The text of a file.

ghost use Rattle.std.specs.Prelude.{◌≡◌, ◌≤◌, length, position, IfOk};
ghost use Rattle.qc_edifact.specs.Texts.{is_above_blank, plain_text, skip_blanks, without_mark};

use qc_num::{Bytes, OutOfMemory};
use std::alloc::Global;

/// The bytes behind a byte-order mark, if there is one.
fn without_mark(bytes: &[u8]) -> &[u8]
    ensures mark { result.now ≡ without_mark bytes.now }
{
    match bytes.strip_prefix([0xEF, 0xBB, 0xBF].as_slice()) {
        Some(bytes) => bytes,
        None => bytes,
    }
}

/// The text of a file: its bytes without a byte-order mark at their beginning and without carriage
/// returns and line feeds.
pub fn plain(alloc: Global, bytes: &[u8]) -> Result<Bytes, OutOfMemory>
    ensures text { IfOk result (λ text. text ≡ plain_text bytes.now) }
{
    let bytes = without_mark(bytes);
    let text = bytes
        .iter()
        .copied()
        .filter(|b| *b != b'\r' && *b != b'\n')
        .collect(alloc)?;
    Ok(Bytes::of(text))
}

/// The place of the first byte above 20 (hexadecimal).
fn begins(text: &[u8]) -> Option<usize>
    ensures { result ≡ position is_above_blank text.now }
{
    text.iter().position(|b| *b > 0x20)
}

/// The text from its first byte above 20 (hexadecimal) on.
pub(crate) fn skip_blanks(text: &[u8]) -> &[u8]
    ensures skipped { result.now ≡ skip_blanks text.now }
    ensures shorter { length result.now ≤ length text.now }
{
    match begins(text) {
        Some(start) => &text[start..],
        None => &[],
    }
}
