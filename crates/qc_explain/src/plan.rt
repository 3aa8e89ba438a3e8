//! Faults of a plan's file.

use crate::cranes::say_no_crane;
use qc_gantt::{PlanFault, PlanKind};
use qc_model::{Instance, Task};
use qc_num::plain_number;
use qc_page::{Page, Sort, Table, is_blank, say_fields, say_header, table_of, text_of};

const HEADER: &str = "task,crane,start,end";

/// How many digits a start and an end have at most.
const DIGITS: usize = 12;

/// Says what is wrong with the table of a plan of an instance, whose first fault is this one.
pub fn say_plan(page: &mut Page, file: &str, bytes: &[u8], inst: &Instance, fault: PlanFault) {
    let table = table_of(page.alloc(), file, bytes, fault.number);
    if let Some(table) = page.unless_short(table) {
        say_fault(page, &table, fault, inst);
        drop(table)
    }
}

/// Says what is wrong with a record.
fn say_fault(page: &mut Page, table: &Table<'_>, fault: PlanFault, inst: &Instance) {
    let number = fault.number;
    match fault.kind {
        PlanKind::Header => say_header(page, table, HEADER, Sort::Plan),
        PlanKind::Fields => say_fields(page, table, number, HEADER),
        PlanKind::UnknownTask => say_task(page, table, number, inst),
        PlanKind::UnknownCrane => {
            say_no_crane(
                page,
                table.place(number),
                table.field(number, 1),
                inst.cranes(),
            )
        }
        PlanKind::Number => say_number(page, table, number),
        PlanKind::EndWrong => say_end(page, table, number, inst),
        PlanKind::TaskTwice => say_twice(page, table, number),
        PlanKind::TaskMissing => say_missing(page, table, inst),
    }
}

/// The first task whose name is this one but for capital letters and spaces.
fn task_like<'a>(inst: &'a Instance, field: &[u8]) -> Option<&'a Task> {
    let field = field.trim_ascii();
    for task in inst.tasks() {
        if task.text().as_bytes().eq_ignore_ascii_case(field) {
            return Some(task);
        }
    }
    None
}

/// Says that a plan has a task that the list hasn't.
fn say_task(page: &mut Page, table: &Table<'_>, number: u32, inst: &Instance) {
    let (place, field) = (table.place(number), table.field(number, 0));
    if is_blank(table, number) {
        return page
            .on(place)
            .text("the record is empty: delete the line")
            .end();
    }
    match task_like(inst, field) {
        Some(task) => {
            let name = task.text();
            page.on(place)
                .text("the task ")
                .shown(field)
                .text(" is written ")
                .text(text_of(name.as_bytes()))
                .end()
        }
        None => page
            .on(place)
            .text("the ship file and the list have no task ")
            .shown(field)
            .text(
                "; a task is a hatch and DD, DH, LH or LD, as 2-DD, and qc tasks SHIP STOW prints all of them",
            )
            .end(),
    }
}

/// Why a field is no time.
fn why_no_number(field: &[u8]) -> &'static str {
    if field.is_empty() {
        "it is missing"
    } else if field.contains(&b':') {
        "times are counted in ticks from the beginning of the plan, and not by a clock"
    } else if field.contains(&b'-') {
        "no task starts before tick 0"
    } else if field.contains(&b'.') || field.contains(&b',') {
        "ticks are whole and have neither point nor comma"
    } else if field.contains(&b' ') {
        "it has a space"
    } else if field.len() > DIGITS {
        "it has more than 12 digits"
    } else if field.starts_with(b"0") {
        "it has a 0 ahead"
    } else {
        "it isn't digits alone"
    }
}

/// Says which time of a record is none.
fn say_number(page: &mut Page, table: &Table<'_>, number: u32) {
    let (start, end) = (table.field(number, 2), table.field(number, 3));
    let (name, field) = if plain_number(start, DIGITS).is_none() {
        ("start", start)
    } else {
        ("end", end)
    };
    page.on(table.place(number))
        .text("the ")
        .text(name)
        .text(" is ")
        .shown(field)
        .text(": ")
        .text(why_no_number(field))
        .text("; it is a tick in 1 to 12 digits, without a leading 0")
        .end()
}

/// Says which end a task has.
fn say_end(page: &mut Page, table: &Table<'_>, number: u32, inst: &Instance) {
    let (Some(task), Some(start)) = (
        task_like(inst, table.field(number, 0)),
        plain_number(table.field(number, 2), DIGITS),
    ) else {
        return;
    };
    page.on(table.place(number))
        .text("the task takes ")
        .ticks(task.ticks)
        .text(", so from ")
        .count(start)
        .text(" on it ends at ")
        .count(start.saturating_add(task.ticks))
        .text(", and not at ")
        .word(text_of(table.field(number, 3)))
        .end()
}

/// Says where a task stands already.
fn say_twice(page: &mut Page, table: &Table<'_>, number: u32) {
    let name = table.field(number, 0);
    let Some(other) = table.record_of(name) else {
        return;
    };
    page.on(table.place(number))
        .text("the task ")
        .shown(name)
        .text(" stands in line ")
        .count(table.place(other).line as u64)
        .text(" already; each task has one record")
        .end()
}

/// How many tasks that have no record are named.
const MOST_NAMED: usize = 5;

/// How many tasks of an instance have no record.
fn count_missing(table: &Table<'_>, inst: &Instance) -> usize {
    let mut count = 0usize;
    for task in inst.tasks() {
        if table.record_of(task.text().as_bytes()).is_none() {
            count = count.saturating_add(1);
        }
    }
    count
}

/// Goes on with the names of tasks of an instance that have no record.
fn add_missing(page: &mut Page, table: &Table<'_>, inst: &Instance) {
    let mut left = MOST_NAMED;
    for task in inst.tasks() {
        let name = task.text();
        if table.record_of(name.as_bytes()).is_some() {
            continue;
        }
        if left == 0 {
            page.text(" ..");
            return;
        }
        left = left.saturating_sub(1);
        page.text(" ").text(text_of(name.as_bytes()));
    }
}

/// Says which tasks have no record.
fn say_missing(page: &mut Page, table: &Table<'_>, inst: &Instance) {
    let count = count_missing(table, inst);
    page.line()
        .word(table.file)
        .text(": ")
        .count(count as u64)
        .text(if count == 1 {
            " task has"
        } else {
            " tasks have"
        })
        .text(" no record:");
    add_missing(page, table, inst);
    page.text("; a plan has one for each task that qc tasks SHIP STOW prints")
        .end()
}
