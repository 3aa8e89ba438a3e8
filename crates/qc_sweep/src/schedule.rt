//! A schedule from a crane for each task.

ghost use Rattle.std.specs.Prelude.{IsTrue, ◌≡◌, ◌≢◌, ◌<◌, ◌⊎◌, ℕ, None, length, IfOk, IfSome};
ghost use Rattle.qc_model.specs.Instance.{IsApart};
ghost use Rattle.qc_model.specs.Judge.{IsJudgeable};
ghost use Rattle.qc_model.specs.Nodes.{HasStarts, IsSettled, assigned};
ghost use Rattle.qc_model.specs.Seen.{seen};
ghost use Rattle.qc_sweep.specs.Plans.{IsFirstPlan};

use crate::going::Going;
use qc_dist::in_reach;
use qc_model::{
    Decision, Direction, Instance, MOST_START, Pair, Schedule, Slot, direction_of, ends,
    seen_number,
};
use qc_num::{OutOfMemory, Tick};
use qc_starts::Starts;
use std::alloc::Global;

/// Puts a task on its crane. Whether that can be, and some starts are left.
fn assign(starts: &mut Starts, task: u16, crane: Option<u16>) -> bool
    requires task { task < length starts.old.inst.tasks }
    requires none { assigned starts.old.decisions task ≡ None }
    ensures inst { starts.new.inst ≡ starts.old.inst }
    ensures others { (j : ℕ) → j ≢ task
        → assigned starts.new.decisions j ≡ assigned starts.old.decisions j }
{
    let Some(crane) = crane else {
        return false;
    };
    let inst = starts.instance();
    if crane >= inst.crane_count() || !in_reach(inst, task, crane) || starts.stuck() {
        return false;
    }
    starts.go(Decision::Assign(task, crane));
    !starts.stuck()
}

/// Puts all tasks on their cranes, in order of their numbers. Whether that can be.
fn assign_all(starts: &mut Starts, cranes: &[Option<u16>]) -> bool
    requires { (j : ℕ) → assigned starts.old.decisions j ≡ None }
    ensures { starts.new.inst ≡ starts.old.inst }
{
    for task in 0..starts.instance().task_count() {
        let crane = cranes.get(task as usize).copied().unwrap_or(None);
        if !assign(starts, task, crane) {
            return false;
        }
    }
    true
}

/// Puts one of two apart tasks first, or the other where no starts are left so. Whether some are left.
fn put_first(starts: &mut Starts, first: u16, second: u16) -> bool
    requires starts { HasStarts starts.old.inst starts.old.decisions }
    requires apart { IsApart starts.old.inst first second ⊎ IsApart starts.old.inst second first }
    requires unsettled { ¬ IsSettled starts.old.inst starts.old.decisions first second }
    ensures { starts.new.inst ≡ starts.old.inst }
{
    let mark = starts.mark();
    starts.go(Decision::Order(first, second));
    if !starts.stuck() {
        return true;
    }
    starts.retract(mark);
    starts.go(Decision::Order(second, first));
    !starts.stuck()
}

/// Orders a pair that is apart, the task that starts earlier first, and the other way round where no
/// starts are left so. Whether some are left.
fn order(starts: &mut Starts, pair: Pair) -> bool
    requires apart { IsApart starts.old.inst pair.first pair.second }
    requires first { pair.first < length starts.old.inst.tasks }
    requires second { pair.second < length starts.old.inst.tasks }
    ensures { starts.new.inst ≡ starts.old.inst }
{
    if starts.stuck() {
        return false;
    }
    if starts.settled(pair.first, pair.second) {
        return true;
    }
    if starts.start(pair.second) < starts.start(pair.first) {
        put_first(starts, pair.second, pair.first)
    } else {
        put_first(starts, pair.first, pair.second)
    }
}

/// Orders all pairs that are apart. Whether that can be.
fn order_all(starts: &mut Starts, inst: &Instance) -> bool
    requires { starts.old.inst ≡ inst.now }
    ensures { starts.new.inst ≡ starts.old.inst }
{
    for pair in inst.apart() {
        if !order(starts, *pair) {
            return false;
        }
    }
    true
}

/// Puts all tasks on their cranes and orders what is apart, where nothing is decided. Whether that can be.
pub(crate) fn place_all(starts: &mut Starts, inst: &Instance, cranes: &[Option<u16>]) -> bool
    requires starts { starts.old.inst ≡ inst.now }
    requires none { (j : ℕ) → assigned starts.old.decisions j ≡ None }
    ensures inst { starts.new.inst ≡ starts.old.inst }
    ensures starts { IsTrue result → HasStarts starts.new.inst starts.new.decisions }
{
    if !assign_all(starts, cranes) || !order_all(starts, inst) {
        return false;
    }
    !starts.stuck()
}

/// The schedule of the least starts, which are those of the instance seen this way.
fn written(
    alloc: Global,
    inst: &Instance,
    way: Direction,
    starts: &Starts,
) -> Result<Schedule, OutOfMemory>
    requires seen { starts.now.inst ≡ seen inst.now way }
    requires starts { HasStarts starts.now.inst starts.now.decisions }
    ensures { IfOk result (IsJudgeable inst.now) }
{
    let mut schedule = Schedule::new(alloc, inst.task_count())?;
    for task in 0..inst.task_count() {
        let crane = starts.crane_of(task).unwrap_or(0);
        let slot = Slot {
            crane: seen_number(inst, way, crane),
            start: starts.start(task),
        };
        schedule.set(task, slot);
    }
    Ok(schedule)
}

/// The schedule with its direction, where it goes one way and ends at a tick of at most twelve digits.
fn judged(inst: &Instance, sched: Schedule) -> Option<Going>
    requires { IsJudgeable inst.now sched }
    ensures { IfSome result (IsFirstPlan inst.now) }
{
    if ends(inst, &sched) > MOST_START {
        return None;
    }
    match direction_of(inst, &sched) {
        Ok(way) => Some(Going { sched, way }),
        Err(_) => None,
    }
}

/// The schedule in which each task has its crane, numbered as they are seen this way, and starts as
/// early as can be; pairs that are apart are ordered as they come. `None` where that can't be.
pub(crate) fn schedule_of(
    alloc: Global,
    inst: &Instance,
    way: Direction,
    turned: &Instance,
    cranes: &[Option<u16>],
) -> Result<Option<Going>, OutOfMemory>
    requires { turned.now ≡ seen inst.now way }
    ensures { IfOk result (λ found. IfSome found (IsFirstPlan inst.now)) }
{
    let mut starts = Starts::open(alloc, turned)?;
    schedule_from_undecided(alloc, inst, way, &mut starts, turned, cranes)
}

/// The same, with the starts at which nothing is decided yet.
fn schedule_from_undecided(
    alloc: Global,
    inst: &Instance,
    way: Direction,
    starts: &mut Starts,
    turned: &Instance,
    cranes: &[Option<u16>],
) -> Result<Option<Going>, OutOfMemory>
    requires turned { turned.now ≡ seen inst.now way }
    requires starts { starts.old.inst ≡ turned.now }
    requires none { (j : ℕ) → assigned starts.old.decisions j ≡ None }
    ensures { IfOk result (λ found. IfSome found (IsFirstPlan inst.now)) }
{
    if !place_all(starts, turned, cranes) {
        return Ok(None);
    }
    let sched = written(alloc, inst, way, starts)?;
    Ok(judged(inst, sched))
}

/// When a schedule ends; later than any where there is none.
pub(crate) fn end_of(inst: &Instance, found: &Option<Going>) -> Tick
    requires { IfSome found.now (IsFirstPlan inst.now) }
{
    match found {
        Some(found) => ends(inst, &found.sched),
        None => Tick::MAX,
    }
}

/// Of two schedules, where there are any, the one that ends first, and the first of both where they
/// end alike.
pub(crate) fn better(inst: &Instance, one: Option<Going>, other: Option<Going>) -> Option<Going>
    requires one { IfSome one (IsFirstPlan inst.now) }
    requires other { IfSome other (IsFirstPlan inst.now) }
    ensures { IfSome result (IsFirstPlan inst.now) }
{
    match (one, other) {
        (Some(one), Some(other)) => {
            if ends(inst, &other.sched) < ends(inst, &one.sched) {
                Some(other)
            } else {
                Some(one)
            }
        }
        (Some(one), None) => Some(one),
        (None, other) => other,
    }
}
