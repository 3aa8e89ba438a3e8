//! Release times: tasks and the ticks before which they don't start.

use crate::facts::{Facts, facts_of};
use qc_page::Page;
use toml::Value;

/// The name and the tick of an entry of `not_before`, as they are written.
fn entry_of<'b>(facts: &'b Facts<'_>, number: u32) -> Option<(&'b str, i64)> {
    let Some(Value::Array(entry)) = facts.element("not_before", number) else {
        return None;
    };
    match entry.as_slice() {
        [name, tick] => Some((name.as_str()?, tick.as_integer()?)),
        _ => None,
    }
}

/// Goes on with an entry of `not_before`.
fn add_entry(page: &mut Page, number: u32) -> &mut Page {
    page.text("entry ")
        .count(u64::from(number))
        .text(" of not_before")
}

/// Says which entry names what is no task of the ship.
pub(crate) fn say_unknown_task(page: &mut Page, facts: &Facts<'_>, number: u32) {
    let Some((name, _)) = entry_of(facts, number) else {
        return;
    };
    page.on(facts.place(0, "not_before"));
    add_entry(page, number)
        .text(" names ")
        .shown(name.as_bytes())
        .text("; a task is a number of hatches, - and DD, DH, LH or LD, as \"2-DD\"")
        .end()
}

/// Says which entry has a tick that is none.
pub(crate) fn say_late(page: &mut Page, facts: &Facts<'_>, number: u32) {
    let Some((name, tick)) = entry_of(facts, number) else {
        return;
    };
    page.on(facts.place(0, "not_before"));
    add_entry(page, number)
        .text(" gives ")
        .word(name)
        .text(" the tick ")
        .number(tick)
        .text("; it may be a whole number from 0 to 1000000")
        .end()
}

/// The first entry that names a task.
fn first_with(facts: &Facts<'_>, name: &str, before: u32) -> u32 {
    for number in 1..before {
        match entry_of(facts, number) {
            Some((earlier, _)) if earlier == name => return number,
            _ => {}
        }
    }
    before
}

/// Says which task two entries name.
pub(crate) fn say_task_twice(page: &mut Page, facts: &Facts<'_>, number: u32) {
    let Some((name, _)) = entry_of(facts, number) else {
        return;
    };
    page.on(facts.place(0, "not_before"));
    add_entry(page, number)
        .text(" names ")
        .word(name)
        .text(", as entry ")
        .count(u64::from(first_with(facts, name, number)))
        .text(" does; a task has one tick")
        .end()
}

/// Notes that an entry of `not_before`, by its number from 1, names a task without a move.
pub fn say_idle_release(page: &mut Page, file: &str, bytes: &[u8], number: u32) {
    let Some(Some(facts)) = page.unless_short(facts_of(page.alloc(), file, bytes)) else {
        return;
    };
    let Some((name, _)) = entry_of(&facts, number) else {
        return;
    };
    page.note(facts.place(0, "not_before"));
    add_entry(page, number)
        .text(", ")
        .word(name)
        .text(", says nothing: the list has no move of it")
        .end()
}
