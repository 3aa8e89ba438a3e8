//! What tasks that run still need, by a log.

ghost use Rattle.std.specs.Prelude.{◌≡◌, ℕ, ◌+◌, ◌<◌, ◌≤◌, ◌↔◌, IfNone, IfOk, IfSome, IsTrue, List, length};
ghost use Rattle.qc_dispatch.specs.Course.{is_running, is_waiting, stage_of};
ghost use Rattle.qc_dispatch.specs.Following.{journal_of, most_passed};
ghost use Rattle.qc_dispatch.specs.Journal.{IsFollowed};
ghost use Rattle.qc_dispatch.specs.Worked.{begun_at};
ghost use Rattle.qc_model.specs.declared.schedule.Slot.{Slot};
ghost use Rattle.qc_model.specs.Instance.{InstanceView, ticks_of};
ghost use Rattle.qc_model.specs.Numbers.{most_work};
ghost use Rattle.qc_rest.specs.Known.{AreKnown};
ghost use Rattle.qc_rest.specs.Remaining.{IsDue, IsFirstDue, NoneIsDue, left_of, over_at, remaining, running_of};

use qc_dispatch::{Dispatch, Followed, Remaining};
use qc_model::Slot;
use qc_num::{OutOfMemory, Tick};
use std::alloc::Global;

/// A task that runs.
#[derive(Clone, Copy)]
pub struct StillRuns {
    /// Its number, from 0.
    pub task: u16,
    /// The number of its crane, from 0.
    pub crane: u16,
    /// The ticks that it still needs, at least 1.
    pub ticks: Tick,
}

/// Whether a task has no start.
pub(crate) fn is_left(work: &Dispatch, task: u16) -> bool
    requires { task < length work.now.inst.tasks }
    ensures { result ≡ is_waiting (stage_of work.now task) }
{
    match work.start_of(task) {
        Some(_) => false,
        None => true,
    }
}

/// Whether a task runs.
pub(crate) fn runs(work: &Dispatch, task: u16) -> bool
    requires { task < length work.now.inst.tasks }
    ensures { result ≡ is_running (stage_of work.now task) }
{
    if is_left(work, task) {
        return false;
    }
    match work.end_of(task) {
        Some(_) => false,
        None => true,
    }
}

/// What is left now of ticks that were told at some moment; where none were, of the planned length.
fn left_of(told: Option<Remaining>, now: Tick, planned_end: Tick) -> Tick
    ensures { result ≡ left_of told now planned_end }
{
    match told {
        None => planned_end.saturating_sub(now),
        Some(told) => told.ticks.saturating_sub(now.saturating_sub(told.at)),
    }
}

/// When a task ends if it takes as long as planned; its length where it has no start.
fn planned_end(work: &Dispatch, task: u16) -> Tick
    requires { task < length work.now.inst.tasks }
    ensures moment { result ≡ begun_at work.now task + ticks_of work.now.inst task }
    ensures soon { result ≤ work.now.clock + most_work }
{
    let _now = work.now();
    let begun = match work.start_of(task) {
        Some(start) => start,
        None => 0,
    };
    begun + work.instance().task(task).ticks
}

/// The ticks that a task still needs.
pub(crate) fn remaining(journal: &Followed, task: u16) -> Tick
    requires known { AreKnown journal.now }
    requires inside { task < length journal.now.dispatch.inst.tasks }
    ensures ticks { result ≡ remaining (journal_of journal.now) task }
    ensures bound { result ≤ most_passed }
{
    let told = journal.remaining[task as usize];
    left_of(
        told,
        journal.dispatch.now(),
        planned_end(&journal.dispatch, task),
    )
}

/// When a task is over: at its end, or once it has had the ticks that it still needs.
pub(crate) fn over_at(journal: &Followed, task: u16) -> Tick
    requires known { AreKnown journal.now }
    requires inside { task < length journal.now.dispatch.inst.tasks }
    ensures moment { result ≡ over_at (journal_of journal.now) task }
    ensures bound { result ≤ journal.now.dispatch.clock + most_passed }
{
    let now = journal.dispatch.now();
    match journal.dispatch.end_of(task) {
        Some(end) => end,
        None => now + remaining(journal, task),
    }
}

/// Whether a task runs that has had the ticks that it needed.
fn is_due(journal: &Followed, task: u16) -> bool
    requires known { AreKnown journal.now }
    requires inside { task < length journal.now.dispatch.inst.tasks }
    ensures { IsTrue result ↔ IsDue (journal_of journal.now) task }
{
    runs(&journal.dispatch, task) && remaining(journal, task) == 0
}

/// Whether a task of a log that was followed runs and has had the ticks that it needed, so that its end isn't reported
/// yet.
pub fn is_run_out(journal: &Followed, task: u16) -> bool
    requires followed { (inst : InstanceView) × ((plan : List Slot) × ((text : List ℕ)
        × IsFollowed inst plan text (journal_of journal.now))) }
    requires inside { task < length journal.now.dispatch.inst.tasks }
    ensures { IsTrue result ↔ IsDue (journal_of journal.now) task }
{
    let _now = journal.dispatch.now();
    is_due(journal, task)
}

/// The lowest task that runs and has had the ticks that it needed; `None` where there is none.
pub(crate) fn first_due(journal: &Followed) -> Option<u16>
    requires known { AreKnown journal.now }
    ensures none { IfNone result (NoneIsDue (journal_of journal.now)) }
    ensures first { IfSome result (IsFirstDue (journal_of journal.now)) }
{
    for task in 0..journal.dispatch.instance().task_count() {
        if is_due(journal, task) {
            return Some(task);
        }
    }
    None
}

/// The tasks that run, and what each still needs.
pub(crate) fn running_of(
    alloc: Global,
    slots: &[Slot],
    journal: &Followed,
) -> Result<Vec<StillRuns>, OutOfMemory>
    requires known { AreKnown journal.now }
    requires plan { slots.now ≡ journal.now.dispatch.plan }
    ensures { IfOk result (λ running. running.items ≡ running_of (journal_of journal.now)) }
{
    let work = &journal.dispatch;
    let mut running = Vec::new(alloc);
    for task in 0..work.instance().task_count() {
        if runs(work, task) {
            running.push(StillRuns {
                task,
                crane: slots[task as usize].crane,
                ticks: remaining(journal, task),
            })?;
        }
    }
    Ok(running)
}
