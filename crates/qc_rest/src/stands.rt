//! Where cranes stand in the middle of work, by a log.

ghost use Rattle.std.specs.Prelude.{◌≡◌, ◌<◌, ◌≤◌, ◌↔◌, IfOk, IfSome, IsTrue, length};
ghost use Rattle.qc_dispatch.specs.Following.{journal_of};
ghost use Rattle.qc_rest.specs.Known.{AreKnown, IsLatest, IsMine};
ghost use Rattle.qc_rest.specs.Remaining.{over_at};
ghost use Rattle.qc_rest.specs.Stands.{AreStands, IsStand};

use crate::remains::{is_left, over_at};
use crate::stand::Stand;
use qc_dispatch::{Dispatch, Followed};
use qc_model::Slot;
use qc_num::OutOfMemory;
use std::alloc::Global;

/// Whether a crane has begun a task.
fn has_begun(slots: &[Slot], work: &Dispatch, crane: u16, task: u16) -> bool
    requires plan { slots.now ≡ work.now.plan }
    requires inside { task < length work.now.inst.tasks }
    ensures { IsTrue result ↔ IsMine work.now crane task }
{
    let _now = work.now();
    slots[task as usize].crane == crane && !is_left(work, task)
}

/// Whether a task is over no sooner than the one that was over last so far, if there was any.
fn is_no_sooner(journal: &Followed, last: Option<u16>, task: u16) -> bool
    requires known { AreKnown journal.now }
    requires last { IfSome last (λ i. i < length journal.now.dispatch.inst.tasks) }
    requires inside { task < length journal.now.dispatch.inst.tasks }
    ensures { IsTrue result ↔ IfSome last (λ i. over_at (journal_of journal.now) i ≤ over_at (journal_of journal.now) task) }
{
    match last {
        Some(last) => over_at(journal, last) <= over_at(journal, task),
        None => true,
    }
}

/// Whether a crane has begun a task, which is over no sooner than the one that was over last so far, if there was any.
fn is_latest(slots: &[Slot], journal: &Followed, crane: u16, last: Option<u16>, task: u16) -> bool
    requires known { AreKnown journal.now }
    requires plan { slots.now ≡ journal.now.dispatch.plan }
    requires last { IfSome last (λ i. i < length journal.now.dispatch.inst.tasks) }
    requires inside { task < length journal.now.dispatch.inst.tasks }
    ensures { IsTrue result ↔ (IsMine journal.now.dispatch crane task
        × IfSome last (λ i. over_at (journal_of journal.now) i ≤ over_at (journal_of journal.now) task)) }
{
    has_begun(slots, &journal.dispatch, crane, task) && is_no_sooner(journal, last, task)
}

/// The task that a crane does or did last; `None` where it has begun none.
fn last_of(slots: &[Slot], journal: &Followed, crane: u16) -> Option<u16>
    requires known { AreKnown journal.now }
    requires plan { slots.now ≡ journal.now.dispatch.plan }
    ensures { IsLatest journal.now.dispatch (over_at (journal_of journal.now)) crane
        (length journal.now.dispatch.inst.tasks) result }
{
    let mut last: Option<u16> = None;
    for task in 0..journal.dispatch.instance().task_count() {
        if is_latest(slots, journal, crane, last, task) {
            last = Some(task);
        }
    }
    last
}

/// Where a crane stands.
fn stand_of(slots: &[Slot], journal: &Followed, crane: u16) -> Stand
    requires known { AreKnown journal.now }
    requires plan { slots.now ≡ journal.now.dispatch.plan }
    requires inside { crane < length journal.now.dispatch.inst.cranes }
    ensures { IsStand journal.now.dispatch (over_at (journal_of journal.now)) crane result }
{
    match last_of(slots, journal, crane) {
        Some(task) => Stand {
            bay: journal.dispatch.instance().task(task).bay,
            until: over_at(journal, task),
        },
        None => {
            let post = journal.dispatch.instance().post(crane);
            Stand {
                bay: post.bay,
                until: post.ready,
            }
        }
    }
}

/// Where each crane stands.
pub(crate) fn stands_of(
    alloc: Global,
    slots: &[Slot],
    journal: &Followed,
) -> Result<Vec<Stand>, OutOfMemory>
    requires known { AreKnown journal.now }
    requires plan { slots.now ≡ journal.now.dispatch.plan }
    ensures count { IfOk result (λ stands. length stands.items ≡ length journal.now.dispatch.inst.cranes) }
    ensures stands { IfOk result (λ stands. AreStands journal.now.dispatch (over_at (journal_of journal.now)) stands.items) }
{
    let mut stands = Vec::new(alloc);
    for crane in 0..journal.dispatch.instance().crane_count() {
        stands.push(stand_of(slots, journal, crane))?;
    }
    Ok(stands)
}
