//! The instance of the rest.

ghost use Rattle.std.specs.Prelude.{◌≡◌, ℕ, ◌-◌, ◌<◌, ◌↔◌, ◌⊎◌, IfOk, IsTrue, length, map};
ghost use Rattle.std.specs.List.{range_with_len};
ghost use Rattle.qc_dispatch.specs.Following.{journal_of};
ghost use Rattle.qc_dispatch.specs.Order.{ArePaired};
ghost use Rattle.qc_model.specs.Instance.{IsBefore, Valid};
ghost use Rattle.qc_rest.specs.Known.{AreKnown};
ghost use Rattle.qc_rest.specs.Limits.{IsPlace, place_at};
ghost use Rattle.qc_rest.specs.Making.{AreNumbers, ArePairs};
ghost use Rattle.qc_rest.specs.Remaining.{over_at};
ghost use Rattle.qc_rest.specs.RestOf.{crane_in, held_by, holds_back, left_tasks, pairs_in, release_in, rest_of, task_in};

use crate::remains::{is_left, over_at, runs};
use crate::stand::Stand;
use qc_dispatch::Followed;
use qc_model::{Crane, Instance, Pair, Task};
use qc_num::{Bay, OutOfMemory, Tick};
use std::alloc::Global;

/// Whether two tasks may not run at the same time.
fn are_paired(inst: &Instance, i: u16, j: u16) -> bool
    ensures { IsTrue result ↔ ArePaired inst.now i j }
{
    inst.is_apart(i, j) || inst.is_apart(j, i)
}

/// Whether a task that runs keeps another off until it is over.
fn keeps_off(inst: &Instance, i: u16, j: u16) -> bool
    ensures { IsTrue result ↔ (IsBefore inst.now i j ⊎ ArePaired inst.now i j) }
{
    if inst.is_before(i, j) {
        return true;
    }
    are_paired(inst, i, j)
}

/// Whether a task runs, and another may not start before its end.
fn holds_back(journal: &Followed, i: u16, j: u16) -> bool
    requires { i < length journal.now.dispatch.inst.tasks }
    ensures { result ≡ holds_back journal.now.dispatch i j }
{
    let runs = runs(&journal.dispatch, i);
    let first = keeps_off(journal.dispatch.instance(), i, j);
    runs && first
}

/// For how long a task holds another back, from now on.
fn held_by(journal: &Followed, j: u16, i: u16) -> Tick
    requires known { AreKnown journal.now }
    requires inside { i < length journal.now.dispatch.inst.tasks }
    ensures { result ≡ held_by journal.now.dispatch (over_at (journal_of journal.now)) j i }
{
    if holds_back(journal, i, j) {
        over_at(journal, i).saturating_sub(journal.dispatch.now())
    } else {
        0
    }
}

/// The release of a task counted from now, and no earlier than the end of what holds it back.
fn release_in(journal: &Followed, j: u16) -> Tick
    requires known { AreKnown journal.now }
    requires inside { j < length journal.now.dispatch.inst.tasks }
    ensures { result ≡ release_in journal.now.dispatch (over_at (journal_of journal.now)) j }
{
    let inst = journal.dispatch.instance();
    let own = inst.task(j).release.saturating_sub(journal.dispatch.now());
    let mut held = 0;
    for i in 0..inst.task_count() {
        held = held_by(journal, j, i).max(held);
    }
    own.max(held)
}

/// The tasks that are left, released as they are in the rest.
fn tasks_in(alloc: Global, journal: &Followed) -> Result<Vec<Task>, OutOfMemory>
    requires known { AreKnown journal.now }
    ensures { IfOk result (λ tasks. tasks.items
        ≡ map (task_in journal.now.dispatch (over_at (journal_of journal.now))) (left_tasks journal.now.dispatch)) }
{
    let mut tasks = Vec::new(alloc);
    for j in 0..journal.dispatch.instance().task_count() {
        if is_left(&journal.dispatch, j) {
            tasks.push(Task {
                release: release_in(journal, j),
                ..journal.dispatch.instance().task(j)
            })?;
        }
    }
    Ok(tasks)
}

/// A crane at this bay, ready then, counted from now.
fn moved(crane: &Crane, bay: Bay, until: Tick, now: Tick) -> Result<Crane, OutOfMemory>
    ensures { IfOk result (λ made. made ≡ record crane.now { bay = bay; ready = until - now }) }
{
    Ok(Crane {
        name: crane.name.clone()?,
        ready: until.saturating_sub(now),
        bay,
        from: crane.from,
        to: crane.to,
    })
}

/// The cranes, at their places and ready as they are in the rest.
fn cranes_in(
    alloc: Global,
    journal: &Followed,
    stands: &[Stand],
    places: &[i64],
) -> Result<Vec<Crane>, OutOfMemory>
    requires stands { length stands.now ≡ length journal.now.dispatch.inst.cranes }
    requires places { length places.now ≡ 8 }
    requires near { (k : ℕ) → k < length journal.now.dispatch.inst.cranes → IsPlace k (place_at places.now k) }
    ensures { IfOk result (λ cranes. cranes.items
        ≡ map (crane_in journal.now.dispatch stands.now (place_at places.now)) (range_with_len 0 (length journal.now.dispatch.inst.cranes))) }
{
    let inst = journal.dispatch.instance();
    let now = journal.dispatch.now();
    let mut cranes = Vec::new(alloc);
    for k in 0..inst.crane_count() {
        let bay = places[k as usize] as Bay;
        cranes.push(moved(inst.crane(k), bay, stands[k as usize].until, now)?)?;
    }
    Ok(cranes)
}

/// The number of each task among those that are left.
pub(crate) fn numbers_of(alloc: Global, journal: &Followed) -> Result<Vec<u16>, OutOfMemory>
    requires known { AreKnown journal.now }
    ensures { IfOk result (λ numbers. AreNumbers journal.now.dispatch numbers.items) }
{
    let mut numbers = Vec::new(alloc);
    let mut number: u16 = 0;
    for j in 0..journal.dispatch.instance().task_count() {
        numbers.push(number)?;
        if is_left(&journal.dispatch, j) {
            number += 1;
        }
    }
    Ok(numbers)
}

/// The pairs of which both tasks are left, by their new numbers.
fn pairs_in(
    alloc: Global,
    journal: &Followed,
    numbers: &[u16],
    pairs: &[Pair],
) -> Result<Vec<Pair>, OutOfMemory>
    requires numbers { AreNumbers journal.now.dispatch numbers.now }
    requires range { ArePairs journal.now.dispatch pairs.now }
    ensures { IfOk result (λ kept. kept.items ≡ pairs_in journal.now.dispatch pairs.now) }
{
    let work = &journal.dispatch;
    let mut kept = Vec::new(alloc);
    for pair in pairs {
        if is_left(work, pair.first) && is_left(work, pair.second) {
            kept.push(Pair {
                first: numbers[pair.first as usize],
                second: numbers[pair.second as usize],
            })?;
        }
    }
    Ok(kept)
}

/// What is left, as an instance that begins now.
pub(crate) fn instance_of(
    alloc: Global,
    journal: &Followed,
    stands: &[Stand],
    places: &[i64],
    numbers: &[u16],
) -> Result<Instance, OutOfMemory>
    requires known { AreKnown journal.now }
    requires stands { length stands.now ≡ length journal.now.dispatch.inst.cranes }
    requires places { length places.now ≡ 8 }
    requires near { (k : ℕ) → k < length journal.now.dispatch.inst.cranes → IsPlace k (place_at places.now k) }
    requires numbers { AreNumbers journal.now.dispatch numbers.now }
    requires valid { Valid (rest_of journal.now.dispatch (over_at (journal_of journal.now)) stands.now (place_at places.now)) }
    ensures { IfOk result (λ rest. rest
        ≡ rest_of journal.now.dispatch (over_at (journal_of journal.now)) stands.now (place_at places.now)) }
{
    let inst = journal.dispatch.instance();
    let tasks = tasks_in(alloc, journal)?;
    let cranes = cranes_in(alloc, journal, stands, places)?;
    let before = pairs_in(alloc, journal, numbers, inst.before())?;
    let apart = pairs_in(alloc, journal, numbers, inst.apart())?;
    Ok(Instance::of(
        inst.bays(),
        inst.travel(),
        inst.gap(),
        tasks,
        cranes,
        before,
        apart,
    )
    .with_turn(inst.turn()))
}
