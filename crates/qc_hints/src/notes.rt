//! Notes: what was taken as it stands and likely isn't meant so.

use crate::facts::{Facts, facts_of, whole};
use crate::keys::{is_known, keys_of};
use crate::ordinals::ordinal;
use qc_num::OutOfMemory;
use qc_page::{Page, Place, nearest};
use std::alloc::Global;
use toml::{Table, Value};

/// How many keys that aren't read are told.
const MOST_KEYS: usize = 20;

/// How many bays from a hatch a crane may stand without a note.
const FAR: i64 = 10;

/// How many decimetres from a hatch a crane may stand at what is a bay of the ship without a note.
const FAR_OFF: i64 = 100;

/// Less than this is rather a distance in metres than in decimetres.
const LEAST_CLEAR: i64 = 100;

/// Says what of a ship file isn't read, and what in it is unusual.
pub fn say_notes(page: &mut Page, file: &str, bytes: &[u8]) {
    let Some(Some(facts)) = page.unless_short(facts_of(page.alloc(), file, bytes)) else {
        return;
    };
    say_keys(page, &facts, 0, &facts.table);
    say_cranes(page, &facts);
    say_unread(page, &facts);
    say_clear(page, &facts)
}

/// Says which keys of a crane or, with 0, of the ship aren't read.
fn say_keys(page: &mut Page, facts: &Facts<'_>, crane: u32, table: &Table) {
    let mut left = MOST_KEYS;
    for (key, _) in table {
        let key = key.as_str();
        if is_known(crane, key) {
            continue;
        }
        if left == 0 {
            return say_further(page, crane);
        }
        left = left.saturating_sub(1);
        say_key(page, facts.place(crane, key), crane, key);
    }
}

/// Says that further keys of a crane or, with 0, of the ship aren't read.
fn say_further(page: &mut Page, crane: u32) {
    page.line()
        .text(if crane == 0 {
            "note: further keys of the ship file aren't read"
        } else {
            "note: further keys of the crane aren't read"
        })
        .end()
}

/// The key of a crane or, with 0, of the ship that may be meant by one that isn't read: none where that one is a key of
/// the other.
fn near_key(alloc: Global, crane: u32, key: &str) -> Result<Option<&'static str>, OutOfMemory> {
    if is_of_other(crane, key) {
        Ok(None)
    } else {
        nearest(alloc, key, keys_of(crane))
    }
}

/// Whether a key of a crane or, with 0, of the ship is one of the other.
fn is_of_other(crane: u32, key: &str) -> bool {
    is_known(if crane == 0 { 1 } else { 0 }, key)
}

/// Where a key stands that is one of the ship below a crane or, with 0, one of a crane above the first.
fn due_place(crane: u32) -> &'static str {
    if crane == 0 {
        "; keys of a crane stand below its line [[crane]]"
    } else {
        "; keys of the ship stand above the first [[crane]]"
    }
}

/// Says that a key of a crane or, with 0, of the ship isn't read.
fn say_key(page: &mut Page, place: Place<'_>, crane: u32, key: &str) {
    let Some(near) = page.unless_short(near_key(page.alloc(), crane, key)) else {
        return;
    };
    page.note(place).text("the key ").shown(key.as_bytes());
    if crane == 0 {
        page.text(" is no key of the ship and isn't read");
    } else {
        page.text(" in the ")
            .text(ordinal(crane))
            .text(" [[crane]] is no key of a crane and isn't read");
    }
    if let Some(near) = near {
        page.text("; the nearest is ").text(near);
    } else if is_of_other(crane, key) {
        page.text(due_place(crane));
    }
    page.end()
}

/// Says what of the cranes isn't read, and which stand far off.
fn say_cranes(page: &mut Page, facts: &Facts<'_>) {
    let mut number = 0u32;
    for crane in facts.elements("crane") {
        number = number.saturating_add(1);
        if let Value::Table(table) = crane {
            say_keys(page, facts, number, table);
            say_far(page, facts, number);
        }
    }
}

/// Where the first and the last hatch are, as `bay` counts.
fn ends_of(facts: &Facts<'_>) -> (i64, i64) {
    if facts.in_decimetres() {
        let places = facts.elements("places");
        (
            whole(places.first()).unwrap_or(0),
            whole(places.last()).unwrap_or(0),
        )
    } else {
        let count = facts.elements("hatches").len();
        (1, i64::try_from(count).unwrap_or(0))
    }
}

/// Whether a number is that of a bay of the ship.
fn is_bay_of_ship(facts: &Facts<'_>, bay: i64) -> bool {
    let last = whole(facts.elements("hatches").last()).unwrap_or(0);
    1 <= bay && bay <= last.saturating_add(1)
}

/// Says that a crane stands far from any hatch; where places are in decimetres, only at what is a bay of the ship.
fn say_far(page: &mut Page, facts: &Facts<'_>, crane: u32) {
    let Some(bay) = facts.crane_number(crane, "bay") else {
        return;
    };
    let (first, last) = ends_of(facts);
    let off = if bay > last {
        bay.saturating_sub(last)
    } else {
        first.saturating_sub(bay)
    };
    let is_said = if facts.in_decimetres() {
        off > FAR_OFF && is_bay_of_ship(facts, bay)
    } else {
        off > FAR
    };
    if is_said {
        say_off(page, facts, crane, bay, last, off)
    }
}

/// Says that a crane stands so far from any hatch, of which the last is there, as `bay` counts.
fn say_off(page: &mut Page, facts: &Facts<'_>, crane: u32, bay: i64, last: i64, off: i64) {
    let in_decimetres = facts.in_decimetres();
    page.note(facts.place(crane, "bay"))
        .text("the ")
        .text(ordinal(crane))
        .text(" [[crane]] stands at ")
        .text(if in_decimetres {
            "decimetre "
        } else {
            "crane bay "
        })
        .number(bay)
        .text(", ")
        .rail(off.unsigned_abs(), in_decimetres)
        .text(" from any hatch; bay counts ");
    if in_decimetres {
        page.text("decimetres, as places does");
    } else {
        page.text("the hatches of the list, 1 to ").number(last);
    }
    page.text(", and not the bays of the ship").end()
}

/// Says which of two keys isn't read beside the other.
fn say_unread(page: &mut Page, facts: &Facts<'_>) {
    let (key, why) = if facts.in_decimetres() {
        (
            "margin",
            "margin isn't read beside places; clear takes its place",
        )
    } else {
        (
            "clear",
            "clear isn't read without places; margin takes its place",
        )
    };
    if facts.table.contains_key(key) {
        page.note(facts.place(0, key)).text(why).end()
    }
}

/// Says that cranes may come very near to each other.
fn say_clear(page: &mut Page, facts: &Facts<'_>) {
    let Some(clear) = facts.number("clear") else {
        return;
    };
    if clear >= LEAST_CLEAR || !facts.in_decimetres() {
        return;
    }
    page.note(facts.place(0, "clear"))
        .text("clear = ")
        .number(clear)
        .text(" lets cranes come as near as ")
        .number(clear)
        .text(" decimetres; ")
        .number(clear)
        .text(" metres are clear = ")
        .number(clear.saturating_mul(10))
        .end()
}
