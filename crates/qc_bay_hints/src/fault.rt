//! Faults of bay plans.

use crate::container::{say_cell, say_cell_kind, say_id, say_length, say_size, say_twice};
use crate::segment::{Message, part_of};
use qc_bayplan::{BayPlanFault, BayPlanKind, Which};
use qc_edifact::Segment;
use qc_page::Page;

/// Says what is wrong with a bay plan, whose first fault is this one.
pub fn say_bay_plan(page: &mut Page, file: &str, bytes: &[u8], which: Which, fault: BayPlanFault) {
    let message = Message::of(page.alloc(), file, bytes);
    if let Some(message) = page.unless_short(message) {
        say_fault(page, &message, which, fault)
    }
}

/// Says what is wrong with a segment.
fn say_fault(page: &mut Page, message: &Message<'_>, which: Which, fault: BayPlanFault) {
    let number = fault.number;
    match fault.kind {
        BayPlanKind::Una => say_signs(page, message),
        BayPlanKind::After => message
            .on(page, number)
            .text(
                "the plan is over with the segment before it, and a file holds one plan alone: delete what follows",
            )
            .end(),
        BayPlanKind::Cut => say_cut(page, message, number),
        BayPlanKind::TooLong => message
            .on(page, number)
            .text(
                "nothing ends it within 4096 bytes: the file has other service characters than its UNA tells, or it is no BAPLIE",
            )
            .end(),
        BayPlanKind::Tag => message
            .on(page, number)
            .text(
                "it doesn't begin with three capital letters: a ' before it has no ? ahead and so ended a segment, or the file is of another kind",
            )
            .end(),
        BayPlanKind::Place => say_place(page, message, number),
        BayPlanKind::NotBaplie => say_not_baplie(page, message, number),
        BayPlanKind::Partial => say_partial(page, message, number),
        BayPlanKind::Count => say_count(page, message, number),
        BayPlanKind::NoPlace => message
            .on(page, number)
            .text(
                "it is a container ahead of any place: each stands behind the LOC+147 that tells its cell",
            )
            .end(),
        BayPlanKind::TooMany => message
            .on(page, number)
            .text("it is a container behind the 25000th, and a plan has no more")
            .end(),
        _ => say_container(page, message, which, fault),
    }
}

/// Says what is wrong with a container or with its place, and how it is left out.
fn say_container(page: &mut Page, message: &Message<'_>, which: Which, fault: BayPlanFault) {
    let number = fault.number;
    match fault.kind {
        BayPlanKind::CellKind => say_cell_kind(page, message, number),
        BayPlanKind::Cell(fault) => say_cell(page, message, number, fault),
        BayPlanKind::Id => say_id(page, message, which, number),
        BayPlanKind::Size => say_size(page, message, number),
        BayPlanKind::LengthMismatch => say_length(page, message, number),
        BayPlanKind::IdTwice => say_twice(page, message, number, false),
        BayPlanKind::CellTaken => say_twice(page, message, number, true),
        _ => return,
    }
    page.line()
        .text(
            "a container that is to be left out gets BB for CN in its EQD: its place then counts as other, and the count in UNT still holds",
        )
        .end()
}

/// Why six bytes can't serve as service signs.
fn why_no_signs(signs: &[u8]) -> &'static str {
    let (Some(component), Some(element), Some(release), Some(end)) = (
        signs.first(),
        signs.get(1),
        signs.get(3),
        signs.get(5),
    ) else {
        return "there are fewer than six";
    };
    if component == element || component == end || element == end {
        "the first, the second and the sixth are three different ones"
    } else if release == component || release == element || release == end {
        "the fourth, the release character, is another than the first, the second and the sixth, or a blank"
    } else {
        "the first, the second, the fourth and the sixth are no letters and no digits, and can be seen"
    }
}

/// Says which of the service signs can't serve.
fn say_signs(page: &mut Page, message: &Message<'_>) {
    message
        .whole(page)
        .text("the characters behind UNA are ")
        .shown(message.signs())
        .text(": ")
        .text(why_no_signs(message.signs()))
        .text("; most files have :+.? and a blank and '")
        .end()
}

/// Says that a file was cut short.
fn say_cut(page: &mut Page, message: &Message<'_>, number: u32) {
    if message.is_empty_at(number) {
        message
            .whole(page)
            .text("the file ends ahead of segment ")
            .count(u64::from(number))
            .text(", and its plan isn't over, which UNT ends, and UNZ where there was a UNB")
    } else {
        message.on(page, number).text("no ' ends it")
    }
    .text(": the file was cut short; have it sent again")
    .end()
}

/// Says why a segment may not come where it stands.
fn say_place(page: &mut Page, message: &Message<'_>, number: u32) {
    let Some(segment) = message.segment(number) else {
        return;
    };
    message.on(page, number).text(if segment.has(0, 0, b"UNH") || segment.has(0, 0, b"UNB") {
        "a second message begins, and a file holds one plan alone: cut it in two"
    } else if segment.has(0, 0, b"UNG") || segment.has(0, 0, b"UNE") {
        "it is of a group of messages: have the message sent without groups"
    } else if segment.has(0, 0, b"UNZ") {
        "the message isn't over, which UNT ends"
    } else {
        "it stands outside of the message, which UNH begins and UNT ends"
    });
    page.end()
}

/// Says which message it is.
fn say_not_baplie(page: &mut Page, message: &Message<'_>, number: u32) {
    let Some(segment) = message.segment(number) else {
        return;
    };
    let Some(name) = part_of(page, &segment, 2, 0) else {
        return;
    };
    message
        .on(page, number)
        .text("the message is ")
        .shown(name.as_slice())
        .text("; ask the line for the bay plan, BAPLIE, of the whole ship")
        .end()
}

/// Says which part of a plan it is.
fn say_partial(page: &mut Page, message: &Message<'_>, number: u32) {
    let Some(segment) = message.segment(number) else {
        return;
    };
    message
        .on(page, number)
        .text(if segment.has(1, 3, b"LOADONLY") {
            "the message tells what is loaded alone"
        } else {
            "the message tells changes of a plan alone, by its function"
        })
        .text("; ask the line for a plan of the whole ship, of function 9 or 5")
        .end()
}

/// The number of the first segment with a tag; 0 where there is none.
fn first_of(message: &Message<'_>, tag: &[u8]) -> u32 {
    let Some(segments) = message.segments() else {
        return 0;
    };
    let mut count = 0u32;
    for entry in segments {
        count = count.saturating_add(1);
        if is_tagged(entry.ok(), tag) {
            return count;
        }
    }
    0
}

/// Whether there is a segment with this tag.
fn is_tagged(segment: Option<Segment<'_>>, tag: &[u8]) -> bool {
    match segment {
        Some(segment) => segment.has(0, 0, tag),
        None => false,
    }
}

/// Says what was counted, and what is told.
fn say_count(page: &mut Page, message: &Message<'_>, number: u32) {
    let Some(segment) = message.segment(number) else {
        return;
    };
    let Some(told) = part_of(page, &segment, 1, 0) else {
        return;
    };
    if segment.has(0, 0, b"UNZ") {
        return message
            .on(page, number)
            .text("it tells of ")
            .shown(told.as_slice())
            .text(" messages, and there is 1: the file isn't whole; have it sent again")
            .end();
    }
    let counted = number
        .saturating_sub(first_of(message, b"UNH"))
        .saturating_add(1);
    message
        .on(page, number)
        .text("it tells of ")
        .shown(told.as_slice())
        .text(" segments, and from UNH to it there are ")
        .count(u64::from(counted))
        .text(": the file isn't whole, or was changed by hand; have it sent again")
        .end()
}
