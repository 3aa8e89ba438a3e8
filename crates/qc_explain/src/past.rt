//! Faults of a table of past tasks.

use qc_num::plain_number;
use qc_page::{Page, Place, Sort, Table, is_blank, say_fields, say_header, table_of, text_of};
use qc_past::{PastFault, PastKind};

const HEADER: &str = "call,phase,planned,real";

/// How many digits a length has at most.
const DIGITS: usize = 9;

/// How many letters the name of a call has at most.
const LETTERS: usize = 20;

/// Says what is wrong with a table of past tasks, whose first fault is this one.
pub fn say_past(page: &mut Page, file: &str, bytes: &[u8], fault: PastFault) {
    let table = table_of(page.alloc(), file, bytes, fault.number);
    if let Some(table) = page.unless_short(table) {
        say_fault(page, &table, fault);
        drop(table)
    }
}

/// Says what is wrong with a record.
fn say_fault(page: &mut Page, table: &Table<'_>, fault: PastFault) {
    let number = fault.number;
    match fault.kind {
        PastKind::Header => say_header(page, table, HEADER, Sort::Past),
        PastKind::TooMany => page
            .on(table.place(number))
            .text("only 10000 records are read: leave out the oldest calls")
            .end(),
        PastKind::Fields => say_fields(page, table, number, HEADER),
        PastKind::Call => say_call(page, table, number),
        PastKind::Phase => say_phase(page, table, number),
        PastKind::Number => say_number(page, table, number),
        PastKind::TooLong => say_long(page, table, number),
        PastKind::CallFull => say_full(page, table, number),
        PastKind::CallTwice => say_twice(page, table, number),
        PastKind::Empty => say_empty(page, table.file),
    }
}

/// Says that nothing stands behind the header.
fn say_empty(page: &mut Page, file: &str) {
    page.on(Place::whole(file))
        .text(
            "there is no record behind the header; a record is a task of an earlier call, as 2611,DD,330,365",
        )
        .end()
}

/// Why a field names no call.
fn why_no_call(field: &[u8]) -> &'static str {
    if field.is_empty() {
        "it is missing"
    } else if field.len() > LETTERS {
        "it is too long"
    } else if field.contains(&b' ') {
        "it has a space"
    } else {
        "it has another sign"
    }
}

/// Says what is wrong with the name of a call.
fn say_call(page: &mut Page, table: &Table<'_>, number: u32) {
    let (place, field) = (table.place(number), table.field(number, 0));
    if is_blank(table, number) {
        return page
            .on(place)
            .text("the record is empty: delete the line")
            .end();
    }
    page.on(place)
        .text("the call is ")
        .shown(field)
        .text(": ")
        .text(why_no_call(field))
        .text("; a call's name is 1 to 20 letters, digits, - or _")
        .end()
}

/// What may stand for a phase.
const PHASES: [&str; 5] = ["DD", "DH", "LH", "LD", "-"];

/// The phase that is meant, where only capital letters are missing or spaces stand around it.
fn meant_phase(field: &[u8]) -> Option<&'static str> {
    for phase in &PHASES {
        if field.trim_ascii().eq_ignore_ascii_case(phase.as_bytes()) {
            return Some(*phase);
        }
    }
    None
}

/// Says what is wrong with a phase.
fn say_phase(page: &mut Page, table: &Table<'_>, number: u32) {
    let field = table.field(number, 1);
    page.on(table.place(number))
        .text("the phase is ")
        .shown(field)
        .text("; ");
    match meant_phase(field) {
        Some(meant) => page.text("write ").text(meant).end(),
        None => page.text("the phase is DD, DH, LH, LD, or - for any").end(),
    }
}

/// Why a field is no length.
fn why_no_length(field: &[u8]) -> &'static str {
    if field.is_empty() {
        "it is missing"
    } else if field == b"0".as_slice() {
        "a task takes some time"
    } else if field.contains(&b':') {
        "lengths are counted in one unit, and not by a clock"
    } else if field.contains(&b'-') {
        "no length is below 0"
    } else if field.contains(&b'.') || field.contains(&b',') {
        "it has a point or a comma: choose a smaller unit"
    } else if field.contains(&b' ') {
        "it has a space"
    } else if field.starts_with(b"0") {
        "it has a 0 ahead"
    } else if field.len() > DIGITS {
        "it has more than 9 digits"
    } else {
        "it isn't digits alone"
    }
}

/// Whether a field is a length.
fn is_length(field: &[u8]) -> bool {
    match plain_number(field, DIGITS) {
        Some(number) => number > 0,
        None => false,
    }
}

/// Says which length of a record is none.
fn say_number(page: &mut Page, table: &Table<'_>, number: u32) {
    let (planned, real) = (table.field(number, 2), table.field(number, 3));
    let (name, field) = if is_length(planned) {
        ("real", real)
    } else {
        ("planned", planned)
    };
    page.on(table.place(number))
        .text(name)
        .text(" is ")
        .shown(field)
        .text(": ")
        .text(why_no_length(field))
        .text("; planned and real are whole numbers from 1, of at most 9 digits")
        .end()
}

/// Says that a task took very long.
fn say_long(page: &mut Page, table: &Table<'_>, number: u32) {
    page.on(table.place(number))
        .text("real is ")
        .word(text_of(table.field(number, 3)))
        .text(", more than 100 times planned, which is ")
        .word(text_of(table.field(number, 2)))
        .text(": are planned and real in one unit?")
        .end()
}

/// Says that a call has too many tasks.
fn say_full(page: &mut Page, table: &Table<'_>, number: u32) {
    page.on(table.place(number))
        .shown(table.field(number, 0))
        .text(" has 240 records ahead of this one: a call has at most 240 tasks")
        .end()
}

/// Says where a call stands already.
fn say_twice(page: &mut Page, table: &Table<'_>, number: u32) {
    let name = table.field(number, 0);
    let Some(other) = table.record_of(name) else {
        return;
    };
    page.on(table.place(number))
        .shown(name)
        .text(" stands in line ")
        .count(table.place(other).line as u64)
        .text(" already, and another call between: the records of a call stand together")
        .end()
}
