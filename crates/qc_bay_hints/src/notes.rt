//! What is worth a note once a list of moves is made.

use crate::both::{Both, lengths_of, number_of, places_of};
use crate::decks::stay_on_deck;
use crate::segment::Message;
use qc_bayplan::Container;
use qc_changes::Class;
use qc_num::{Bytes, OutOfMemory};
use qc_page::{Page, text_of};
use std::alloc::Global;

/// Notes what a planner may want to look at before the list of the moves between two plans is used.
pub fn say_moves(page: &mut Page, arrival: (&str, &[u8]), departure: (&str, &[u8])) {
    let Some(both) = Both::of(page, arrival.1, departure.1) else {
        return;
    };
    let first = Message::of(page.alloc(), arrival.0, arrival.1);
    let second = Message::of(page.alloc(), departure.0, departure.1);
    let (Some(first), Some(second)) = (page.unless_short(first), page.unless_short(second)) else {
        return;
    };
    say_part(page, &first);
    say_part(page, &second);
    say_strangers(page, &second, &both);
    say_decks(page, &first, &both);
    say_unnamed(page, &second, &both);
    say_besides(page, &first, both.arrival.bundled(), both.arrival.other());
    say_besides(
        page,
        &second,
        both.departure.bundled(),
        both.departure.other(),
    );
    say_lengths(page, &second, &both);
    say_alike(page, &second, &both);
    say_restows(page, &both);
}

/// Notes that a message calls itself a part of a plan.
fn say_part(page: &mut Page, message: &Message<'_>) {
    let Some(segments) = message.segments() else {
        return;
    };
    for entry in segments {
        if let Ok(segment) = entry
            && segment.has(0, 0, b"BGM")
            && segment.has(1, 0, b"659")
        {
            return message
                .note(page)
                .text(
                    "its document code is 659, as of a part of a plan; the list takes it for the plan of the whole ship",
                )
                .end();
        }
    }
}

/// Notes that no container is in both plans.
fn say_strangers(page: &mut Page, message: &Message<'_>, both: &Both) {
    let gone = both.changes.count(Class::Discharged);
    let come = both.changes.count(Class::Loaded);
    if gone > 0
        && come > 0
        && gone == both.arrival.containers().len()
        && come == both.departure.containers().len()
    {
        message
            .note(page)
            .text(
                "no id of it is in the plan of the arrival: are both of one ship, and is this one more than what is loaded?",
            )
            .end()
    }
}

/// Notes how many containers stay on deck over holds that are worked.
fn say_decks(page: &mut Page, message: &Message<'_>, both: &Both) {
    let count = stay_on_deck(page.alloc(), both);
    let Some(count) = page.unless_short(count) else {
        return;
    };
    if count > 0 {
        message
            .note(page)
            .count(count)
            .text(
                " stay on deck at bays at which the hold is worked: a plan doesn't tell the covers, so add a D and an L row for each that stands on a cover to be opened, and for what is over it",
            )
            .end()
    }
}

/// The first id that is made of a cell.
fn first_unnamed(containers: &[Container]) -> &str {
    for container in containers {
        if container.id.as_bytes().starts_with(b"NEW-") {
            return text_of(container.id.as_bytes());
        }
    }
    ""
}

/// Notes how many containers have no id yet.
fn say_unnamed(page: &mut Page, message: &Message<'_>, both: &Both) {
    let count = both.departure.unnamed();
    if count > 0 {
        message
            .note(page)
            .count(u64::from(count))
            .text(" of it have no id yet and are named by their cells, the first ")
            .word(first_unnamed(both.departure.containers()))
            .end()
    }
}

/// Notes what a plan holds beside its containers.
fn say_besides(page: &mut Page, message: &Message<'_>, bundled: u32, other: u32) {
    if bundled > 0 {
        message
            .note(page)
            .count(u64::from(bundled))
            .text(
                " more are bundled with the first of their place, and move with it: they have no row",
            )
            .end()
    }
    if other > 0 {
        message
            .note(page)
            .count(u64::from(other))
            .text(" of its places hold no container but something else, and have no row")
            .end()
    }
}

/// The first container that is 20 feet long in one plan and 40 in the other.
fn other_length<'a>(alloc: Global, both: &'a Both) -> Result<Option<&'a Container>, OutOfMemory> {
    let lengths = lengths_of(alloc, both.arrival.containers())?;
    for container in both.departure.containers() {
        if let Some(forty) = lengths.get(&container.id.as_bytes())
            && *forty != container.cell.is_forty()
        {
            return Ok(Some(container));
        }
    }
    Ok(None)
}

/// Notes a container whose length the plans tell in two ways.
fn say_lengths(page: &mut Page, message: &Message<'_>, both: &Both) {
    let found = other_length(page.alloc(), both);
    if let Some(Some(container)) = page.unless_short(found) {
        message
            .note(page)
            .word(text_of(container.id.as_bytes()))
            .text(" is 20 feet long in one plan and 40 in the other: is it one container?")
            .end()
    }
}

/// The letters and digits of an id, all in capitals.
fn letters_of(alloc: Global, id: &[u8]) -> Result<Bytes, OutOfMemory> {
    let letters = id
        .iter()
        .copied()
        .filter(|b| b.is_ascii_alphanumeric())
        .map(|b| b.to_ascii_uppercase())
        .collect(alloc)?;
    Ok(Bytes::of(letters))
}

/// Whether two ids differ, and in small letters and signs alone.
fn are_alike(alloc: Global, one: &[u8], other: &[u8]) -> Result<bool, OutOfMemory> {
    let (first, second) = (letters_of(alloc, one)?, letters_of(alloc, other)?);
    Ok(one != other && first.as_slice() == second.as_slice())
}

/// The first container that goes from a cell to which one comes whose id is alike, with that one.
fn alike<'a>(
    alloc: Global,
    both: &'a Both,
) -> Result<Option<(&'a Container, &'a Container)>, OutOfMemory> {
    let coming = both.departure.containers();
    let places = places_of(alloc, coming)?;
    for container in both.arrival.containers() {
        if let Some(at) = places.get(&number_of(&container.cell))
            && let Some(other) = coming.get(*at)
            && are_alike(alloc, container.id.as_bytes(), other.id.as_bytes())?
        {
            return Ok(Some((container, other)));
        }
    }
    Ok(None)
}

/// Notes a place at which one container goes and another comes whose ids are alike.
fn say_alike(page: &mut Page, message: &Message<'_>, both: &Both) {
    let found = alike(page.alloc(), both);
    if let Some(Some((going, coming))) = page.unless_short(found) {
        message
            .note(page)
            .word(text_of(going.id.as_bytes()))
            .text(" goes and ")
            .word(text_of(coming.id.as_bytes()))
            .text(" comes to its place: is that one container, written in two ways?")
            .end()
    }
}

/// Notes that containers change their places.
fn say_restows(page: &mut Page, both: &Both) {
    let count = both.changes.count(Class::Restowed);
    if count > 0 {
        page.line()
            .text("note: ")
            .count(count as u64)
            .text(
                " change their places: where that is from hatch to hatch, the ship file wants restows = \"ordered\"",
            )
            .end()
    }
}
