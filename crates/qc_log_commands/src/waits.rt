//! What cranes wait for where a log ends.

use crate::dispatching::Dispatched;
use qc_dispatch::Dispatch;
use qc_model::{Name, Slot};
use qc_num::{OutOfMemory, Tick};
use qc_run::{Until, Wait};
use std::alloc::Global;

/// The next task of a crane by the plan; none where it does one now, or has begun all of them.
fn next_of(dispatch: &Dispatch, slots: &[Slot], crane: u16) -> Option<u16> {
    let (mut next, mut soonest) = (None, Tick::MAX);
    for task in 0..dispatch.instance().task_count() {
        let slot = slots.get(task as usize)?;
        let is_left = dispatch.start_of(task).is_none();
        if slot.crane == crane && !is_left && dispatch.end_of(task).is_none() {
            return None;
        }
        if slot.crane == crane && is_left && slot.start < soonest {
            next = Some(task);
            soonest = slot.start;
        }
    }
    next
}

/// That a task waits for the end of another.
fn over(dispatch: &Dispatch, slots: &[Slot], other: u16) -> Option<Until> {
    let inst = dispatch.instance();
    if other >= inst.task_count() {
        return None;
    }
    let slot = slots.get(other as usize)?;
    let crane = inst.cranes().get(slot.crane as usize)?;
    Some(Until::Over {
        task: inst.task(other).text(),
        crane: Name::of(crane.name.as_bytes())?,
        runs: dispatch.start_of(other).is_some(),
    })
}

/// What a crane waits for, where it stands idle and has tasks left.
fn wait_of(dispatch: &Dispatch, slots: &[Slot], crane: u16) -> Option<Wait> {
    let inst = dispatch.instance();
    let next = next_of(dispatch, slots, crane)?;
    if next >= inst.task_count() {
        return None;
    }
    let until = match dispatch.may_start(next) {
        Some(at) => Until::At(at),
        None => over(dispatch, slots, dispatch.waits_for(next)?)?,
    };
    Some(Wait {
        crane: Name::of(inst.cranes().get(crane as usize)?.name.as_bytes())?,
        task: inst.task(next).text(),
        until,
    })
}

/// What each crane waits for that stands idle and has tasks left, in the order of cranes: another task's end, or ticks
/// alone.
pub(crate) fn waits_of(alloc: Global, told: &Dispatched) -> Result<Vec<Wait>, OutOfMemory> {
    let slots = told.job.sched.slots();
    let dispatch = &told.followed.dispatch;
    let mut waits = Vec::new(alloc);
    for crane in 0..dispatch.instance().crane_count() {
        if let Some(wait) = wait_of(dispatch, slots, crane) {
            waits.push(wait)?;
        }
    }
    Ok(waits)
}
