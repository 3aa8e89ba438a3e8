//! Files that are of another kind than is wanted.

use crate::bytes::has;
use crate::page::Page;
use crate::place::Place;

/// What a text is, as far as its first line tells.
#[derive(Clone, Copy, PartialEq, Eq)]
pub enum Sort {
    Ship,
    Stow,
    Plan,
    Tree,
    Past,
}

impl Sort {
    fn text(self) -> &'static str {
        match self {
            Sort::Ship => "a ship file",
            Sort::Stow => "a stowage list",
            Sort::Plan => "a plan",
            Sort::Tree => "a bound tree",
            Sort::Past => "a table of past tasks",
        }
    }

    fn word(self) -> &'static str {
        match self {
            Sort::Ship => "SHIP",
            Sort::Stow => "STOW",
            Sort::Plan => "PLAN",
            Sort::Tree => "TREE",
            Sort::Past => "PAST",
        }
    }
}

/// The order in which files stand where one was taken for the other.
fn order_of(is: Sort, wanted: Sort) -> &'static str {
    if is == Sort::Past || wanted == Sort::Past {
        "SHIP, STOW, PLAN and PAST"
    } else {
        "SHIP, STOW, PLAN and TREE"
    }
}

/// The text behind a byte order mark, if there is one.
pub(crate) fn behind_mark(text: &[u8]) -> &[u8] {
    text.strip_prefix(b"\xEF\xBB\xBF").unwrap_or(text)
}

/// What the bytes are where they are no text in UTF-8 without a mark, and what to do.
fn no_text(bytes: &[u8]) -> Option<&'static str> {
    if bytes.trim_ascii().is_empty() {
        Some("the file is empty")
    } else if bytes.starts_with(b"PK\x03\x04") || bytes.starts_with(b"\xD0\xCF\x11\xE0") {
        Some(
            "the file is a workbook (or another archive) and no text: save it from the program that made it as text",
        )
    } else if bytes.starts_with(b"%PDF") {
        Some("the file is a PDF and no text")
    } else if bytes.starts_with(b"\xFF\xFE") || bytes.starts_with(b"\xFE\xFF") {
        Some("the file is in UTF-16: save it as UTF-8")
    } else if has(bytes, b"\0") {
        Some("the file has bytes of 0 and is no text: save it as UTF-8")
    } else {
        None
    }
}

/// What a text looks like.
fn sort_of(bytes: &[u8]) -> Option<Sort> {
    let text = behind_mark(bytes);
    if text.starts_with(b"id,move,") || text.starts_with(b"id;move;") {
        Some(Sort::Stow)
    } else if text.starts_with(b"task,crane,") || text.starts_with(b"task;crane;") {
        Some(Sort::Plan)
    } else if text.starts_with(b"call,phase,") || text.starts_with(b"call;phase;") {
        Some(Sort::Past)
    } else if text.starts_with(b"QCTREE") || text.starts_with(b"QCFREE") {
        Some(Sort::Tree)
    } else if has(text, b"[[crane]]") || text.starts_with(b"hatches") {
        Some(Sort::Ship)
    } else {
        None
    }
}

/// Says what is wrong with a file as a whole, and answers whether something was.
pub fn say_form(page: &mut Page, file: &str, bytes: &[u8], wanted: Sort) -> bool {
    if let Some(what) = no_text(bytes) {
        let (place, wanted) = (Place::whole(file), wanted.text());
        page.on(place)
            .text(what)
            .text("; ")
            .text(wanted)
            .text(" is wanted")
            .end();
        return true;
    }
    match sort_of(bytes) {
        Some(sort) if sort != wanted => say_sort(page, file, sort, wanted),
        _ => false,
    }
}

/// Says that a file is of another kind, and answers that something was wrong.
fn say_sort(page: &mut Page, file: &str, sort: Sort, wanted: Sort) -> bool {
    let (place, is) = (Place::whole(file), sort.text());
    let (should, word) = (wanted.text(), wanted.word());
    page.on(place)
        .text("this is ")
        .text(is)
        .text(", and ")
        .text(should)
        .text(" is wanted here: ")
        .text(order_of(sort, wanted))
        .text(" stand in this order, and this file was named as ")
        .text(word)
        .end();
    true
}
