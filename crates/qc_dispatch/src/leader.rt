//! Which of its leaders a task waits for.

ghost use Rattle.std.specs.Prelude.{◌≡◌, ◌+◌, ◌*◌, ◌<◌, ◌≤◌, ◌&&◌, None, Some, if◌then◌else◌, is_none, length, slice_index_or};
ghost use Rattle.qc_model.specs.declared.limits.TheConstants.{MOST_TASKS};
ghost use Rattle.qc_dispatch.specs.declared.stage.Stage.TheVariants.{Waiting};
ghost use Rattle.qc_dispatch.specs.Course.{end_in};
ghost use Rattle.qc_dispatch.specs.Marks.{mark};
ghost use Rattle.qc_dispatch.specs.Waits.{IsNext, open_start};

use crate::next::{Next, sooner};
use crate::order::cell;
use crate::stage::Stage;
use qc_model::Slot;
use qc_num::Tick;

/// Whether by the table a task leads another.
fn is_marked(marks: &[bool], i: u16, j: u16) -> bool
    requires first { i < MOST_TASKS }
    requires second { j < MOST_TASKS }
    requires inside { MOST_TASKS * i + j < length marks.now }
    ensures { result ≡ mark marks.now i j }
{
    marks[cell(i, j)]
}

/// When the plan starts a task, if it leads another and has no end.
fn open_start(leads: bool, stage: Stage, slot: Slot) -> Option<Tick>
    ensures { result ≡ (if leads && is_none (end_in stage) then Some slot.start else None) }
{
    if leads && stage.end().is_none() {
        Some(slot.start)
    } else {
        None
    }
}

/// Of the tasks that lead one and have no end the first by the plan, and when the plan starts it.
pub(crate) fn first_open(
    stages: &[Stage],
    slots: &[Slot],
    marks: &[bool],
    task: u16,
) -> Option<Next>
    requires slots { length slots.now ≡ length stages.now }
    requires marks { length marks.now ≡ length stages.now * MOST_TASKS }
    requires few { length stages.now ≤ MOST_TASKS }
    requires inside { task < length stages.now }
    ensures { IsNext (open_start marks.now (λ i. end_in (slice_index_or stages.now i Waiting)) slots.now task)
        (length stages.now) result }
{
    let mut first = None;
    for i in 0..stages.len() as u16 {
        let leads = is_marked(marks, i, task);
        let start = open_start(leads, stages[i as usize], slots[i as usize]);
        first = sooner(first, i, start);
    }
    first
}
