//! Faults of a log of places.

use crate::cranes::say_no_crane;
use qc_page::{Page, Place, are_digits, line_of, piece_at, raw_line};
use qc_ship::Ship;
use qc_watch::{WatchFault, WatchKind};

/// Says what is wrong with a log of the places of a ship's cranes, whose first fault is this one.
pub fn say_log(page: &mut Page, file: &str, bytes: &[u8], ship: &Ship, fault: WatchFault) {
    let number = fault.line as usize;
    let place = Place::at_line(file, number);
    match fault.kind {
        WatchKind::TooMany => page
            .on(place)
            .text("this is a line behind the 200000th, and a log has no more")
            .end(),
        WatchKind::Line => {
            let why = why_no_line(raw_line(bytes, number));
            say_no_line(page, place, bytes, why, "TIME NAME PLACE, as 10 C1 5")
        }
        WatchKind::UnknownCrane => {
            let name = word(line_of(bytes, number), 1);
            say_no_crane(page, place, name, ship.cranes())
        }
        WatchKind::TimeBack => say_time(page, place, bytes),
    }
}

/// A word of a line, from 0, where single spaces stand between words.
pub(crate) fn word(line: &[u8], at: usize) -> &[u8] {
    piece_at(line, b' ', at).unwrap_or(&[])
}

/// Whether the line with a number is the last one, and no line feed ends it.
fn is_open(bytes: &[u8], number: usize) -> bool {
    bytes.last() != Some(&b'\n') && piece_at(bytes, b'\n', number).is_none()
}

/// Why a line is none of a log.
fn why_no_line(line: &[u8]) -> &'static str {
    let (time, places) = (word(line, 0), word(line, 2));
    if line.trim_ascii().is_empty() {
        "the line is empty: delete it"
    } else if line.ends_with(b"\r") {
        "the lines end with a carriage return, as on Windows: they end with a line feed alone"
    } else if line.contains(&b',') || line.contains(&b';') || line.contains(&b'\t') {
        "single spaces stand between the three, and no commas, semicolons or tabs"
    } else if line.starts_with(b" ")
        || line.ends_with(b" ")
        || word(line, 1).is_empty()
        || places.is_empty()
    {
        "there is one space between the three and none besides"
    } else if time.contains(&b':') {
        "times are counted in ticks, and not by a clock"
    } else if places.contains(&b'.') || time.contains(&b'.') {
        "times and places are whole numbers"
    } else if !are_digits(time) {
        "the time stands first, then the crane and its place"
    } else {
        "it isn't a time, a crane's name and a place"
    }
}

/// Says why a line is none of a log, or that the log was cut off in it, and what a line is.
pub(crate) fn say_no_line(page: &mut Page, place: Place<'_>, bytes: &[u8], why: &str, form: &str) {
    page.on(place)
        .shown(line_of(bytes, place.line))
        .text(": ")
        .text(if is_open(bytes, place.line) {
            "no line feed ends it: the log was cut off, or its last line has none"
        } else {
            why
        })
        .text("; a line is ")
        .text(form)
        .end()
}

/// The last line ahead of this one that has the name as its second word; 0 where there is none.
fn last_before(bytes: &[u8], number: usize, name: &[u8]) -> usize {
    let (mut at, mut last) = (0usize, 0usize);
    for line in bytes.split(|byte| *byte == b'\n') {
        at = at.saturating_add(1);
        if at >= number {
            break;
        }
        if word(line, 1) == name {
            last = at;
        }
    }
    last
}

/// Says which earlier line of the crane has a time that isn't lower.
fn say_time(page: &mut Page, place: Place<'_>, bytes: &[u8]) {
    let line = line_of(bytes, place.line);
    let (time, name) = (word(line, 0), word(line, 1));
    let earlier = last_before(bytes, place.line, name);
    let before = word(line_of(bytes, earlier), 0);
    page.on(place)
        .text("the time of ")
        .shown(name)
        .text(" is ")
        .shown(time)
        .text(", and in line ")
        .count(earlier as u64)
        .text(" it was ")
        .shown(before)
        .text(" already; the lines of each crane stand in order of time")
        .end()
}
