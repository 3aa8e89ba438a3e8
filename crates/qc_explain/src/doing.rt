//! A task as a plan has it done.

use qc_model::{Crane, Instance, Schedule, Task, TaskText};
use qc_num::{Bay, Tick};
use qc_page::{Page, Place, Table, text_of};

/// A task as a plan has it done.
#[derive(Drop)]
pub(crate) struct Doing<'a> {
    pub(crate) inst: &'a Instance,
    /// Whether places along the rail are counted in decimetres.
    pub(crate) in_decimetres: bool,
    task: Task,
    name: TaskText,
    pub(crate) number: u16,
    pub(crate) crane: &'a Crane,
    pub(crate) crane_number: u16,
    pub(crate) start: Tick,
    /// Where its record stands.
    pub(crate) place: Place<'a>,
}

/// The number of a task with this name, from 0.
fn number_of(inst: &Instance, name: &[u8]) -> Option<u16> {
    for number in 0..inst.task_count() {
        if inst.task(number).text().as_bytes() == name {
            return Some(number);
        }
    }
    None
}

/// A task of a plan by its name.
pub(crate) fn done_by<'a>(
    inst: &'a Instance,
    in_decimetres: bool,
    sched: &Schedule,
    table: &Table<'a>,
    name: &[u8],
) -> Option<Doing<'a>> {
    let Some(number) = number_of(inst, name) else {
        return None;
    };
    let Some(task) = inst.tasks().get(number as usize) else {
        return None;
    };
    let Some(slot) = sched.slots().get(number as usize) else {
        return None;
    };
    let Some(crane) = inst.cranes().get(slot.crane as usize) else {
        return None;
    };
    Some(Doing {
        inst,
        in_decimetres,
        task: *task,
        name: task.text(),
        number,
        crane,
        crane_number: slot.crane,
        start: slot.start,
        place: place_of(table, name),
    })
}

/// Where the record of a task with this name stands.
fn place_of<'a>(table: &Table<'a>, name: &[u8]) -> Place<'a> {
    match table.record_of(name) {
        Some(number) => table.place(number),
        None => Place::whole(table.file),
    }
}

impl<'a> Doing<'a> {
    /// The task's name.
    pub(crate) fn name(&self) -> &str {
        text_of(self.name.as_bytes())
    }

    /// The bay of the task.
    pub(crate) fn bay(&self) -> Bay {
        self.task.bay
    }

    /// What is counted along the rail.
    pub(crate) fn unit(&self) -> &'static str {
        if self.in_decimetres {
            "decimetre "
        } else {
            "crane bay "
        }
    }

    /// When it ends.
    pub(crate) fn end(&self) -> Tick {
        self.start.saturating_add(self.task.ticks)
    }

    /// The tick before which it doesn't start.
    pub(crate) fn release(&self) -> Tick {
        self.task.release
    }

    /// The name of the crane that does it.
    pub(crate) fn crane_name(&self) -> &'a str {
        text_of(self.crane.name.as_bytes())
    }

    /// Goes on with the task, its crane and a tick, behind the words that lead to it.
    pub(crate) fn add_with(&self, page: &mut Page, words: &str, tick: Tick) {
        page.text(self.name())
            .text(" (")
            .word(self.crane_name())
            .text(words)
            .count(tick)
            .text(")");
    }

    /// Ends the line: the task may start at this tick.
    pub(crate) fn end_with_start(&self, page: &mut Page, start: Tick) {
        page.text(": ")
            .text(self.name())
            .text(" may start at ")
            .count(start)
            .text(", and ends at ")
            .count(start.saturating_add(self.task.ticks))
            .text(" then")
            .end()
    }
}

/// The ticks of travel over so many bays.
pub(crate) fn travel(inst: &Instance, bays: Tick) -> Tick {
    inst.travel().saturating_mul(bays)
}

/// How many bays two cranes are apart at least, by their numbers.
pub(crate) fn bays_needed(inst: &Instance, one: u16, other: u16) -> Tick {
    Tick::from(inst.gap().unsigned_abs()).saturating_mul(Tick::from(one.abs_diff(other)))
}

/// How far crane `v` at bay `x` and crane `w` at bay `y` are too near to each other, in bays.
pub(crate) fn bays_short(inst: &Instance, v: u16, x: Bay, w: u16, y: Bay) -> Tick {
    let needed = bays_needed(inst, v, w);
    let (low, high) = if v < w { (x, y) } else { (y, x) };
    if v == w {
        0
    } else if low <= high {
        needed.saturating_sub(Tick::from(low.abs_diff(high)))
    } else {
        needed.saturating_add(Tick::from(low.abs_diff(high)))
    }
}
