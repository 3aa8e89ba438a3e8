//! Where something stands in a file.

use crate::bytes::piece_at;

/// Where something stands: the file's name as it was typed, the line from 1, and the record of a table from 1. A
/// number that isn't known is 0 and isn't told.
#[derive(Clone, Copy)]
pub struct Place<'a> {
    pub file: &'a str,
    pub line: usize,
    pub record: u32,
}

impl<'a> Place<'a> {
    /// The file itself.
    pub fn whole(file: &'a str) -> Place<'a> {
        Place {
            file,
            line: 0,
            record: 0,
        }
    }

    /// A line of a file.
    pub fn at_line(file: &'a str, line: usize) -> Place<'a> {
        Place {
            file,
            line,
            record: 0,
        }
    }
}

/// The line of a text, from 1, in which the byte at an offset stands.
pub fn line_at(text: &[u8], offset: usize) -> usize {
    let front = text.get(..offset).unwrap_or(text);
    let mut line = 1usize;
    for byte in front {
        if *byte == b'\n' {
            line = line.saturating_add(1);
        }
    }
    line
}

/// A line of a text by its number, from 1, without its line feed; empty where there is none.
pub fn raw_line(text: &[u8], number: usize) -> &[u8] {
    match number.checked_sub(1) {
        Some(number) => piece_at(text, b'\n', number).unwrap_or(&[]),
        None => &[],
    }
}

/// A line of a text by its number, from 1, without what ends it.
pub fn line_of(text: &[u8], number: usize) -> &[u8] {
    let line = raw_line(text, number);
    line.strip_suffix(b"\r").unwrap_or(line)
}
