//! The old order as a schedule of the rest.

ghost use Rattle.std.specs.Prelude.{◌≡◌, ◌+◌, ◌<◌, ◌≤◌, None, IfOk, length, map, replicate};
ghost use Rattle.std.specs.List.{range_with_len};
ghost use Rattle.qc_dispatch.specs.Course.{left};
ghost use Rattle.qc_dispatch.specs.Marks.{AreMarks};
ghost use Rattle.qc_model.specs.Numbers.{most_distance, most_ready};
ghost use Rattle.qc_rest.specs.Following.{AreEarlySlots, AreFollowed, first_start};
ghost use Rattle.qc_rest.specs.Known.{AreKnown};
ghost use Rattle.qc_rest.specs.Making.{AreNumbers};
ghost use Rattle.qc_rest.specs.OldOrder.{IsOldOrder};
ghost use Rattle.qc_rest.specs.Passing.{StartBy, most_rise};

use crate::gone::left_marks;
use crate::pass::Pass;
use crate::remains::is_left;
use qc_dispatch::Followed;
use qc_dist::head;
use qc_model::{Instance, Schedule, Slot};
use qc_num::{OutOfMemory, Tick};
use std::alloc::Global;

/// From when on a task may be begun in the rest, whatever leads it; 0 where it has begun.
fn first_start(
    slots: &[Slot],
    journal: &Followed,
    rest: &Instance,
    numbers: &[u16],
    task: u16,
) -> Tick
    requires known { AreKnown journal.now }
    requires plan { slots.now ≡ journal.now.dispatch.plan }
    requires numbers { AreNumbers journal.now.dispatch numbers.now }
    requires tasks { length rest.now.tasks ≡ left journal.now.dispatch }
    requires cranes { length rest.now.cranes ≡ length journal.now.dispatch.inst.cranes }
    requires inside { task < length journal.now.dispatch.inst.tasks }
    ensures start { result ≡ first_start journal.now.dispatch rest.now task }
    ensures soon { result ≤ most_ready + most_distance }
{
    if is_left(&journal.dispatch, task) {
        head(rest, numbers[task as usize], slots[task as usize].crane)
    } else {
        0
    }
}

/// From when on each task may be begun in the rest, whatever leads it.
fn first_starts(
    alloc: Global,
    slots: &[Slot],
    journal: &Followed,
    rest: &Instance,
    numbers: &[u16],
) -> Result<Vec<Tick>, OutOfMemory>
    requires known { AreKnown journal.now }
    requires plan { slots.now ≡ journal.now.dispatch.plan }
    requires numbers { AreNumbers journal.now.dispatch numbers.now }
    requires tasks { length rest.now.tasks ≡ left journal.now.dispatch }
    requires cranes { length rest.now.cranes ≡ length journal.now.dispatch.inst.cranes }
    ensures starts { IfOk result (λ firsts. firsts.items
        ≡ map (first_start journal.now.dispatch rest.now) (range_with_len 0 (length journal.now.dispatch.inst.tasks))) }
    ensures soon { IfOk result (λ firsts. StartBy firsts.items (most_ready + most_distance)) }
{
    let mut firsts = Vec::new(alloc);
    for task in 0..journal.dispatch.instance().task_count() {
        firsts.push(first_start(slots, journal, rest, numbers, task))?;
    }
    Ok(firsts)
}

/// So many ends that aren't known.
fn no_ends(alloc: Global, tasks: u16) -> Result<Vec<Option<Tick>>, OutOfMemory>
    ensures { IfOk result (λ ends. ends.items ≡ replicate tasks None) }
{
    let ends = vec![in alloc; None; tasks as usize].map_err(OutOfMemory::from)?;
    Ok(ends)
}

/// When each task that is left starts in the rest, by the old order.
fn starts_of(
    alloc: Global,
    slots: &[Slot],
    journal: &Followed,
    marks: &[bool],
    rest: &Instance,
    numbers: &[u16],
) -> Result<Vec<Tick>, OutOfMemory>
    requires known { AreKnown journal.now }
    requires plan { slots.now ≡ journal.now.dispatch.plan }
    requires marks { AreMarks journal.now.dispatch.inst slots.now marks.now }
    requires numbers { AreNumbers journal.now.dispatch numbers.now }
    requires tasks { length rest.now.tasks ≡ left journal.now.dispatch }
    requires cranes { length rest.now.cranes ≡ length journal.now.dispatch.inst.cranes }
    ensures count { IfOk result (λ starts. length starts.items ≡ length journal.now.dispatch.inst.tasks) }
    ensures followed { IfOk result (λ starts. AreFollowed journal.now.dispatch rest.now starts.items) }
    ensures soon { IfOk result (λ starts. StartBy starts.items (most_ready + most_distance + most_rise)) }
{
    let mut pass = Pass {
        left: left_marks(alloc, &journal.dispatch)?,
        starts: first_starts(alloc, slots, journal, rest, numbers)?,
        ends: no_ends(alloc, journal.dispatch.instance().task_count())?,
    };
    pass.run(journal.dispatch.instance(), slots, marks);
    Ok(pass.starts)
}

/// The old order as a schedule of the rest.
pub(crate) fn order_of(
    alloc: Global,
    slots: &[Slot],
    journal: &Followed,
    marks: &[bool],
    rest: &Instance,
    numbers: &[u16],
) -> Result<Schedule, OutOfMemory>
    requires known { AreKnown journal.now }
    requires plan { slots.now ≡ journal.now.dispatch.plan }
    requires marks { AreMarks journal.now.dispatch.inst slots.now marks.now }
    requires numbers { AreNumbers journal.now.dispatch numbers.now }
    requires tasks { length rest.now.tasks ≡ left journal.now.dispatch }
    requires cranes { length rest.now.cranes ≡ length journal.now.dispatch.inst.cranes }
    ensures order { IfOk result (λ order. IsOldOrder journal.now.dispatch rest.now order) }
    ensures soon { IfOk result (λ order. AreEarlySlots order) }
{
    let starts = starts_of(alloc, slots, journal, marks, rest, numbers)?;
    let mut order = Schedule::new(alloc, rest.task_count())?;
    for task in 0..journal.dispatch.instance().task_count() {
        if is_left(&journal.dispatch, task) {
            order.set(
                numbers[task as usize],
                Slot {
                    crane: slots[task as usize].crane,
                    start: starts[task as usize],
                },
            );
        }
    }
    Ok(order)
}
