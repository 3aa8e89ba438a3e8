//! Ship files that are no text in TOML.

use qc_num::OutOfMemory;
use qc_page::{Page, Place, are_digits_or, has, has_letter, line_at, line_of, piece_at};
use toml::de::Error;
use toml::table_from_str;

/// Says in which line a text isn't UTF-8.
fn say_no_utf8(page: &mut Page, file: &str, bytes: &[u8], front: usize) {
    let line = line_at(bytes, front);
    page.on(Place::at_line(file, line))
        .shown(line_of(bytes, line))
        .text(" isn't UTF-8, as in a text saved as Latin-1 or Windows-1252: save the file as UTF-8")
        .end()
}

/// The line without its comment.
fn without_comment(line: &[u8]) -> &[u8] {
    piece_at(line, b'#', 0).unwrap_or(line).trim_ascii()
}

/// Whether a value is digits and such signs, with a digit first and at least one sign.
fn is_number_with(value: &[u8], sign: u8) -> bool {
    match value.first() {
        Some(first) => {
            first.is_ascii_digit() && value.contains(&sign) && are_digits_or(value, sign)
        }
        None => false,
    }
}

/// Why a value can't stand behind an equals sign, in the commonest cases; else the message.
fn hint_on_value<'a>(value: &[u8], message: &'a str) -> &'a str {
    let Some(first) = value.first() else {
        return "the value is missing";
    };
    if is_number_with(value, b',') {
        return "numbers are whole and have no comma: choose a smaller tick";
    }
    if is_number_with(value, b' ') {
        return "a number has no spaces in it";
    }
    if *first == b'0' && is_number_with(value, b'0') {
        return "a number has no 0 ahead";
    }
    if value.contains(&b';') {
        return "values have commas between them, and no semicolons";
    }
    if *first == b'\'' || *first == b'"' {
        return "a text ends with the quotes with which it begins";
    }
    if *first == b'[' {
        return "a bracket isn't closed, or a comma is missing";
    }
    if has_letter(value) {
        return "a text stands between double quotes, and a number has no unit";
    }
    message
}

/// Whether a curly double quote stands in a line.
fn has_curly(line: &[u8]) -> bool {
    has(line, b"\xE2\x80\x9C") || has(line, b"\xE2\x80\x9D") || has(line, b"\xE2\x80\x9E")
}

/// Why a line is none of TOML, in the commonest cases; else the message, which is that of the reader.
fn hint_on<'a>(line: &[u8], message: &'a str) -> &'a str {
    if has_curly(line) {
        return "the quotes are curly ones: write straight ones";
    }
    if line.starts_with(b"//") || line.starts_with(b"--") || line.starts_with(b";") {
        return "a comment begins with #";
    }
    if line == b"[crane]".as_slice() {
        return "each crane begins with a line [[crane]], in two brackets";
    }
    if message == "duplicate key" {
        return "the key stands twice";
    }
    hint_on_pair(line, message)
}

/// Why a line has no key with a value, in the commonest cases; else the message.
fn hint_on_pair<'a>(line: &[u8], message: &'a str) -> &'a str {
    let key = piece_at(line, b'=', 0).unwrap_or(line);
    match line.get(key.len().saturating_add(1)..) {
        Some(value) => {
            if key.trim_ascii().contains(&b' ') {
                "a key is one word, as deck_move"
            } else {
                hint_on_value(value.trim_ascii(), message)
            }
        }
        None => {
            if line.contains(&b':') {
                "a key and its value have an equals sign between them"
            } else {
                message
            }
        }
    }
}

/// Says in which line a text isn't TOML, and why.
pub(crate) fn say_not_toml(page: &mut Page, file: &str, bytes: &[u8]) {
    let text = match std::str::from_utf8(bytes) {
        Ok(text) => text,
        Err(error) => return say_no_utf8(page, file, bytes, error.valid_up_to()),
    };
    match table_from_str(page.alloc(), text) {
        Ok(table) => drop(table),
        Err(error) => {
            say_error(page, file, bytes, &error);
            drop(error)
        }
    }
}

/// Says in which line the reader of TOML stopped, and why.
fn say_error(page: &mut Page, file: &str, bytes: &[u8], error: &Error) {
    let Some(span) = page.unless_short(error.span().ok_or(OutOfMemory)) else {
        return;
    };
    let number = line_at(bytes, span.start);
    let line = line_of(bytes, number);
    page.on(Place::at_line(file, number))
        .shown(line)
        .text(" isn't TOML: ")
        .text(hint_on(without_comment(line), error.message()))
        .end()
}
