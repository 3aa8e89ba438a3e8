//! Plans that break a rule, and the number that keeps it.

use crate::doing::{Doing, bays_needed, bays_short, done_by, travel};
use qc_gantt::read_plan;
use qc_model::{Crane, Instance, Rule, Schedule};
use qc_num::{Bay, Tick};
use qc_page::{Page, Table, table_of, text_of};
use qc_run::Broken;

/// Says how a plan of an instance breaks a rule, and when the task may start. Says nothing where it can't be read.
pub fn say_broken(
    page: &mut Page,
    file: &str,
    bytes: &[u8],
    inst: &Instance,
    in_decimetres: bool,
    told: &Broken,
) {
    if let Ok(sched) = read_plan(page.alloc(), bytes, inst) {
        let most = u32::from(inst.task_count()).saturating_add(1);
        let table = table_of(page.alloc(), file, bytes, most);
        if let Some(table) = page.unless_short(table) {
            say_break(page, &table, inst, in_decimetres, &sched, told);
            drop(table);
        }
        drop(sched)
    }
}

/// Says how a schedule, whose plan is this table, breaks a rule.
fn say_break(
    page: &mut Page,
    table: &Table<'_>,
    inst: &Instance,
    in_decimetres: bool,
    sched: &Schedule,
    told: &Broken,
) {
    let Some(one) = done_by(inst, in_decimetres, sched, table, told.first.as_bytes()) else {
        return;
    };
    let Some(other) = done_by(inst, in_decimetres, sched, table, told.second.as_bytes()) else {
        drop(one);
        return;
    };
    say_rule(page, told.rule, &one, &other);
    drop(other);
    drop(one)
}

/// Says how a rule is broken at one task, or at two.
fn say_rule(page: &mut Page, rule: Rule, one: &Doing<'_>, other: &Doing<'_>) {
    let (early, late) = in_order(one, other);
    match rule {
        Rule::Reach => say_reach(page, one),
        Rule::Ready => say_ready(page, one),
        Rule::Travel => say_travel(page, early, late),
        Rule::Before => say_before(page, one, other),
        Rule::Apart => say_behind(
            page,
            early,
            late,
            " goes on to ",
            "; their hatches are apart, so they are never worked at the same time",
        ),
        Rule::Margin => say_margin(page, early, late),
        Rule::Berth => say_berth(page, one),
        Rule::OneWay => say_one_way(page, early, late),
    }
}

/// The task that starts first, and the other.
fn in_order<'b, 'a>(one: &'b Doing<'a>, other: &'b Doing<'a>) -> (&'b Doing<'a>, &'b Doing<'a>) {
    if other.start < one.start {
        (other, one)
    } else {
        (one, other)
    }
}

/// Ends the line with the way of a task's crane, which is at a bay until a tick, and the start that it allows.
fn end_with_way(page: &mut Page, task: &Doing<'_>, bay: Bay, until: Tick, behind: &str) {
    let bays = Tick::from(bay.abs_diff(task.bay()));
    let way = travel(task.inst, bays);
    page.rail(bays, task.in_decimetres)
        .text(" in ")
        .ticks(way)
        .text(behind);
    task.end_with_start(page, until.saturating_add(way))
}

/// Goes on with how far two tasks are apart, and how far they should be.
fn add_apart(page: &mut Page, early: &Doing<'_>, late: &Doing<'_>) {
    let bays = Tick::from(early.bay().abs_diff(late.bay()));
    page.text(" stand ")
        .rail(bays, early.in_decimetres)
        .text(" apart");
    if are_crossed(early, late) {
        page.text(" in the wrong order, and cranes can't pass each other");
    } else {
        let needed = bays_needed(early.inst, early.crane_number, late.crane_number);
        page.text(", ").count(needed).text(" are needed");
    }
}

/// Whether a crane reaches a bay.
fn reaches(crane: &Crane, bay: Bay) -> bool {
    crane.from <= bay && bay <= crane.to
}

/// Goes on with the names of the cranes that reach a bay.
fn add_reaching(page: &mut Page, inst: &Instance, bay: Bay) {
    let mut between = "";
    for crane in inst.cranes() {
        if reaches(crane, bay) {
            page.text(between).word(text_of(crane.name.as_bytes()));
            between = " or ";
        }
    }
}

/// Whether any crane reaches a bay.
pub(crate) fn is_reached(inst: &Instance, bay: Bay) -> bool {
    for crane in inst.cranes() {
        if reaches(crane, bay) {
            return true;
        }
    }
    false
}

/// Says that a crane doesn't reach a task.
fn say_reach(page: &mut Page, task: &Doing<'_>) {
    let bay = task.bay();
    page.on(task.place)
        .text(task.name())
        .text(" stands at ")
        .text(task.unit())
        .number(i64::from(bay))
        .text(", and ")
        .word(task.crane_name())
        .text(" reaches ")
        .number(i64::from(task.crane.from))
        .text(" to ")
        .number(i64::from(task.crane.to));
    if is_reached(task.inst, bay) {
        page.text(": give the task to ");
        add_reaching(page, task.inst, bay);
        page.end()
    } else {
        page.text("; no crane reaches it, by from and to of the ship file")
            .end()
    }
}

/// When a task's crane can be there.
fn arrival(task: &Doing<'_>) -> Tick {
    let bays = Tick::from(task.crane.bay.abs_diff(task.bay()));
    task.crane.ready.saturating_add(travel(task.inst, bays))
}

/// Says when a task may start that is held back, and whose crane can be there by then.
fn say_release(page: &mut Page, task: &Doing<'_>) {
    page.on(task.place)
        .text(task.name())
        .text(" starts at ")
        .count(task.start)
        .text(", and by not_before at no earlier tick than ")
        .count(task.release());
    task.end_with_start(page, task.release())
}

/// Says when a crane can be at a task, or until when the task is held back, whichever is later.
fn say_ready(page: &mut Page, task: &Doing<'_>) {
    if arrival(task) < task.release() {
        return say_release(page, task);
    }
    let ready = task.crane.ready;
    page.on(task.place)
        .text(task.name())
        .text(" starts at ")
        .count(task.start)
        .text("; ")
        .word(task.crane_name())
        .text(" is ready at ")
        .count(ready)
        .text(" and goes ");
    end_with_way(page, task, task.crane.bay, ready, "")
}

/// Says when a crane can be at its next task.
fn say_travel(page: &mut Page, early: &Doing<'_>, late: &Doing<'_>) {
    page.on(late.place)
        .word(late.crane_name())
        .text(" does ")
        .text(early.name())
        .text(" to ")
        .count(early.end())
        .text(" and ")
        .text(late.name())
        .text(" from ")
        .count(late.start)
        .text(", and goes ");
    let (bay, end) = (early.bay(), early.end());
    end_with_way(page, late, bay, end, " between")
}

/// Says when a task may start that comes behind another.
fn say_before(page: &mut Page, one: &Doing<'_>, other: &Doing<'_>) {
    let (first, second) = if one.inst.is_before(other.number, one.number) {
        (other, one)
    } else {
        (one, other)
    };
    say_behind(page, first, second, " is before it and ends at ", "")
}

/// Says when a task may start that can't before another's end: words ahead of that end, and why.
fn say_behind(page: &mut Page, first: &Doing<'_>, second: &Doing<'_>, until: &str, why: &str) {
    page.on(second.place)
        .text(second.name())
        .text(" starts at ")
        .count(second.start)
        .text(", and ")
        .text(first.name())
        .text(until)
        .count(first.end())
        .text(why);
    second.end_with_start(page, first.end())
}

/// Whether two cranes, of these numbers, would have to stand in the wrong order.
fn are_crossed(one: &Doing<'_>, other: &Doing<'_>) -> bool {
    let (x, y) = (one.bay(), other.bay());
    x != y && (one.crane_number < other.crane_number) != (x < y)
}

/// Says when a task may start that is too near to another crane's.
fn say_margin(page: &mut Page, early: &Doing<'_>, late: &Doing<'_>) {
    page.on(late.place);
    late.add_with(page, ", from ", late.start);
    page.text(" and ");
    early.add_with(page, ", to ", early.end());
    add_apart(page, early, late);
    let (v, w) = (early.crane_number, late.crane_number);
    let short = bays_short(early.inst, v, early.bay(), w, late.bay());
    let least = early.end().saturating_add(travel(early.inst, short));
    late.end_with_start(page, least)
}

/// The crane that keeps a task longest from its place, since it can't leave its own first one, and when the task may
/// start for it.
fn crane_in_way<'a>(task: &Doing<'a>) -> Option<(&'a Crane, Tick)> {
    let inst = task.inst;
    let (mut found, mut most) = (None, task.start);
    for number in 0..inst.crane_count() {
        let crane = inst.crane(number);
        let short = bays_short(inst, number, crane.bay, task.crane_number, task.bay());
        let least = crane.ready.saturating_add(travel(inst, short));
        if number != task.crane_number && short > 0 && least > most {
            found = Some(crane);
            most = least;
        }
    }
    match found {
        Some(crane) => Some((crane, most)),
        None => None,
    }
}

/// Says when a task may start that is too near to a crane that can't leave its first place yet.
fn say_berth(page: &mut Page, task: &Doing<'_>) {
    let Some((crane, least)) = crane_in_way(task) else {
        return;
    };
    page.on(task.place);
    task.add_with(page, ", from ", task.start);
    page.text(" is too near to ")
        .word(text_of(crane.name.as_bytes()))
        .text(", which stands at ")
        .text(task.unit())
        .number(i64::from(crane.bay))
        .text(" and can't leave it before ")
        .count(crane.ready);
    task.end_with_start(page, least)
}

/// Says which task turns the way of the cranes round.
fn say_one_way(page: &mut Page, early: &Doing<'_>, late: &Doing<'_>) {
    page.on(late.place)
        .text("the plan can be worked, but its cranes go to and fro: from ")
        .text(early.name())
        .text(" to ")
        .text(late.name())
        .text(
            " the way is down, and other tasks go up; only a tree of all feasible plans speaks of such a plan, and qc freecheck judges it; qc sheet, dispatch, odds, rest, picture and report take it",
        )
        .end()
}
