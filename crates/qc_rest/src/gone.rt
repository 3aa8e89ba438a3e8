//! When the old order goes on.

ghost use Rattle.std.specs.Prelude.{◌≡◌, ◌<◌, ◌≤◌, IfOk, IfSome, length, map, slice_index};
ghost use Rattle.std.specs.List.{range_with_len};
ghost use Rattle.qc_dispatch.specs.Following.{journal_of};
ghost use Rattle.qc_dispatch.specs.Marks.{AreMarks};
ghost use Rattle.qc_dispatch.specs.Course.{is_waiting, stage_of};
ghost use Rattle.qc_rest.specs.GoneOn.{AreGoneOn};
ghost use Rattle.qc_rest.specs.Going.{first_end, first_go};
ghost use Rattle.qc_rest.specs.Known.{AreKnown};
ghost use Rattle.qc_rest.specs.Passed.{most_base, most_first};
ghost use Rattle.qc_rest.specs.Passing.{EndBy, StartBy};
ghost use Rattle.qc_rest.specs.Remaining.{over_at};

use crate::pass::Pass;
use crate::remains::{is_left, over_at};
use qc_dispatch::{Dispatch, Followed};
use qc_dist::head;
use qc_model::Slot;
use qc_num::{OutOfMemory, Tick};
use std::alloc::Global;

/// Which tasks are left.
pub(crate) fn left_marks(alloc: Global, work: &Dispatch) -> Result<Vec<bool>, OutOfMemory>
    ensures { IfOk result (λ left. left.items
        ≡ map (λ j. is_waiting (stage_of work.now j)) (range_with_len 0 (length work.now.inst.tasks))) }
{
    let mut left = Vec::new(alloc);
    for task in 0..work.instance().task_count() {
        left.push(is_left(work, task))?;
    }
    Ok(left)
}

/// From when on each task may be begun, whatever leads it: from now on, once its crane can be there and all berths are
/// clear.
fn first_goes(alloc: Global, slots: &[Slot], journal: &Followed) -> Result<Vec<Tick>, OutOfMemory>
    requires known { AreKnown journal.now }
    requires plan { slots.now ≡ journal.now.dispatch.plan }
    ensures firsts { IfOk result (λ firsts. firsts.items
        ≡ map (first_go journal.now.dispatch) (range_with_len 0 (length journal.now.dispatch.inst.tasks))) }
    ensures soon { IfOk result (λ firsts. StartBy firsts.items most_first) }
{
    let inst = journal.dispatch.instance();
    let now = journal.dispatch.now();
    let mut firsts = Vec::new(alloc);
    for task in 0..inst.task_count() {
        let free = head(inst, task, slots[task as usize].crane);
        firsts.push(now.max(free))?;
    }
    Ok(firsts)
}

/// When a task is over, if it has begun.
fn first_end(journal: &Followed, task: u16) -> Option<Tick>
    requires known { AreKnown journal.now }
    requires inside { task < length journal.now.dispatch.inst.tasks }
    ensures end { result ≡ first_end (journal_of journal.now) task }
    ensures soon { IfSome result (λ end. end ≤ most_first) }
{
    if is_left(&journal.dispatch, task) {
        None
    } else {
        Some(over_at(journal, task))
    }
}

/// When each task is over that has begun.
fn first_ends(alloc: Global, journal: &Followed) -> Result<Vec<Option<Tick>>, OutOfMemory>
    requires known { AreKnown journal.now }
    ensures ends { IfOk result (λ ends. ends.items
        ≡ map (first_end (journal_of journal.now)) (range_with_len 0 (length journal.now.dispatch.inst.tasks))) }
    ensures soon { IfOk result (λ ends. EndBy ends.items most_first) }
{
    let mut ends = Vec::new(alloc);
    for task in 0..journal.dispatch.instance().task_count() {
        ends.push(first_end(journal, task))?;
    }
    Ok(ends)
}

/// When each task that is left starts, if the old order goes on.
pub(crate) fn goes_of(
    alloc: Global,
    slots: &[Slot],
    journal: &Followed,
    marks: &[bool],
) -> Result<Vec<Tick>, OutOfMemory>
    requires known { AreKnown journal.now }
    requires plan { slots.now ≡ journal.now.dispatch.plan }
    requires marks { AreMarks journal.now.dispatch.inst slots.now marks.now }
    ensures count { IfOk result (λ goes. length goes.items ≡ length journal.now.dispatch.inst.tasks) }
    ensures goes { IfOk result (λ goes. AreGoneOn journal.now.dispatch (over_at (journal_of journal.now)) (slice_index goes.items)) }
    ensures soon { IfOk result (λ goes. StartBy goes.items most_base) }
{
    let mut pass = Pass {
        left: left_marks(alloc, &journal.dispatch)?,
        starts: first_goes(alloc, slots, journal)?,
        ends: first_ends(alloc, journal)?,
    };
    pass.run(journal.dispatch.instance(), slots, marks);
    Ok(pass.starts)
}
