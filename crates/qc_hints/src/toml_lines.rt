//! Where the keys of a ship file stand in its text.

use qc_num::OutOfMemory;
use std::alloc::Global;

/// A line that gives a key its value.
#[derive(Clone, Copy)]
pub(crate) struct KeyLine<'a> {
    /// The line, from 1.
    pub(crate) line: usize,
    /// The number of the `[[crane]]` below which it stands, from 1; 0 above the first.
    pub(crate) crane: u32,
    pub(crate) key: &'a str,
    /// What stands behind the equals sign, without a comment.
    pub(crate) value: &'a str,
}

/// Whether each letter of a name may stand in one without quotes.
fn is_plain(name: &str) -> bool {
    for byte in name.as_bytes() {
        if !byte.is_ascii_alphabetic() && *byte != b'_' && *byte != b'-' {
            return false;
        }
    }
    !name.is_empty()
}

/// The name of a line that begins a table, in one bracket or two.
fn header_of(line: &str) -> Option<&str> {
    let Some(inner) = line.strip_prefix('[') else {
        return None;
    };
    let inner = inner.strip_prefix('[').unwrap_or(inner);
    let Some((name, _)) = inner.split_once(']') else {
        return None;
    };
    let name = name.trim();
    if is_plain(name) { Some(name) } else { None }
}

/// What stands behind an equals sign, without a comment.
fn without_comment(value: &str) -> &str {
    match value.split_once('#') {
        Some((value, _)) => value.trim(),
        None => value.trim(),
    }
}

/// A key without the quotes around it.
fn without_quotes(key: &str) -> &str {
    let key = key.strip_prefix('"').unwrap_or(key);
    key.strip_suffix('"').unwrap_or(key)
}

/// What a line with this number says, behind so many lines `[[crane]]`; none where it gives no key a value. The value
/// of a line that begins a table is empty.
fn key_line(text: &str, line: usize, crane: u32) -> Option<KeyLine<'_>> {
    let text = text.trim();
    if text.starts_with('#') {
        return None;
    }
    let (key, value) = match header_of(text) {
        Some(name) => (name, ""),
        None => match text.split_once('=') {
            Some((key, value)) => (without_quotes(key.trim()), without_comment(value)),
            None => return None,
        },
    };
    let crane = if key == "crane" && value.is_empty() {
        crane.saturating_add(1)
    } else {
        crane
    };
    Some(KeyLine {
        line,
        crane,
        key,
        value,
    })
}

/// The lines of a ship file that give a key its value. A table whose name isn't `crane` counts as no crane of its
/// own, and a line `[[crane]]` is a line of a key without a value.
pub(crate) fn key_lines(alloc: Global, text: &str) -> Result<Vec<KeyLine<'_>>, OutOfMemory> {
    let mut lines = Vec::new(alloc);
    let mut number = 0usize;
    let mut crane = 0u32;
    for line in text.lines() {
        number = number.saturating_add(1);
        if let Some(line) = key_line(line, number, crane) {
            crane = line.crane;
            if lines.push(line).is_err() {
                drop(lines);
                return Err(OutOfMemory);
            }
        }
    }
    Ok(lines)
}

/// The line of a key, of the ship or of a crane.
pub(crate) fn find_key<'b, 'a>(
    lines: &'b [KeyLine<'a>],
    crane: u32,
    key: &str,
) -> Option<&'b KeyLine<'a>> {
    for line in lines {
        if line.crane == crane && line.key == key {
            return Some(line);
        }
    }
    None
}
