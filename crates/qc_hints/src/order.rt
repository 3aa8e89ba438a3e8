//! The planner's own order of tasks.

use crate::facts::{Facts, facts_of};
use qc_page::Page;
use toml::Value;

/// The two names of a pair of `before`, as they are written.
fn names_of<'b>(facts: &'b Facts<'_>, number: u32) -> Option<(&'b str, &'b str)> {
    let Some(Value::Array(pair)) = facts.element("before", number) else {
        return None;
    };
    match pair.as_slice() {
        [first, second] => Some((first.as_str()?, second.as_str()?)),
        _ => None,
    }
}

/// Says which pair names what is no task of the ship.
pub(crate) fn say_no_task(page: &mut Page, facts: &Facts<'_>, number: u32) {
    let Some((first, second)) = names_of(facts, number) else {
        return;
    };
    page.on(facts.place(0, "before"))
        .text("pair ")
        .count(u64::from(number))
        .text(" of before names ")
        .shown(first.as_bytes())
        .text(" and ")
        .shown(second.as_bytes())
        .text("; a task is a number of hatches, - and DD, DH, LH or LD, as \"2-DD\"")
        .end()
}

/// Says which pair names one task twice.
pub(crate) fn say_same(page: &mut Page, facts: &Facts<'_>, number: u32) {
    let Some((first, _)) = names_of(facts, number) else {
        return;
    };
    page.on(facts.place(0, "before"))
        .text("pair ")
        .count(u64::from(number))
        .text(" of before names ")
        .word(first)
        .text(" twice; two different tasks are wanted")
        .end()
}

/// Says with which pair there is a ring.
pub(crate) fn say_ring(page: &mut Page, facts: &Facts<'_>, number: u32) {
    let Some((first, second)) = names_of(facts, number) else {
        return;
    };
    page.on(facts.place(0, "before"))
        .text("by pair ")
        .count(u64::from(number))
        .text(" of before ")
        .word(first)
        .text(" ends before ")
        .word(second)
        .text(" starts, and by the pairs ahead of it, phases of a hatch and ordered restows ")
        .word(second)
        .text(" ends before ")
        .word(first)
        .text(" starts")
        .end()
}

/// Notes that a pair of `before`, by its number from 1, names a task without a move.
pub fn say_idle_pair(page: &mut Page, file: &str, bytes: &[u8], number: u32) {
    let Some(Some(facts)) = page.unless_short(facts_of(page.alloc(), file, bytes)) else {
        return;
    };
    let Some((first, second)) = names_of(&facts, number) else {
        return;
    };
    page.note(facts.place(0, "before"))
        .text("pair ")
        .count(u64::from(number))
        .text(" of before, ")
        .word(first)
        .text(" and ")
        .word(second)
        .text(", says nothing: the list has no move of one of them")
        .end()
}
