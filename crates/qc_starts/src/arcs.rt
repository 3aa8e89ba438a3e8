//! The arcs that a decision adds: one for each number that it makes greater or new.

ghost use Rattle.std.specs.Prelude.{◌≡◌, ◌+◌, ◌*◌, ◌<◌, ◌≤◌, ◌∷◌, [], IfOk, IfSome, None, Some, length, reverse};
ghost use Rattle.qc_dist.specs.Node.{IsOpen};
ghost use Rattle.qc_model.specs.declared.decision.Decision.TheVariants.{Assign, Order};
ghost use Rattle.qc_model.specs.declared.limits.TheConstants.{MOST_DISTANCE, MOST_TASKS, MOST_WORK};
ghost use Rattle.qc_model.specs.Instance.{Valid};
ghost use Rattle.qc_model.specs.Nodes.{Fits, assigned, forced};
ghost use Rattle.qc_starts.specs.Arcs.{AreArcs, AreLow, AreOpening, IsOver, IsRoomy, added, with_added};

use qc_arena::ArcArena;
use qc_dist::{Decisions, upward_ticks};
use qc_model::{Decision, Turn};
use qc_num::{OutOfMemory, Tick};
use std::alloc::Global;

/// Adds an arc for what is forced from one task to another.
fn push_forced(decisions: &Decisions, from: u16, to: u16, arena: &mut ArcArena)
    requires from { from < length decisions.now.inst.tasks }
    requires to { to < length decisions.now.inst.tasks }
    requires nodes { arena.old.nodes ≡ length decisions.now.inst.tasks }
    requires room { length (with_added from to
        (forced decisions.now.inst decisions.now.decisions from to) None (reverse arena.old.arcs))
        ≤ arena.old.cap }
    ensures arcs { reverse arena.new.arcs ≡ with_added from to
        (forced decisions.now.inst decisions.now.decisions from to) None (reverse arena.old.arcs) }
    ensures low { AreLow (reverse arena.old.arcs) → AreLow (reverse arena.new.arcs) }
    ensures nodes { arena.new.nodes ≡ arena.old.nodes }
    ensures cap { arena.new.cap ≡ arena.old.cap }
{
    if let Some(len) = decisions.forced(from, to) {
        arena.push(from, to, len);
    }
}

/// The ticks that the cranes of two tasks add from the first to the second, beyond what their order asks for. Cranes
/// that go one way ask for nothing or for more than that.
#[inline(always)]
fn added(decisions: &Decisions, i: u16, v: u16, j: u16, w: u16) -> Option<Tick>
    requires first_task { i < length decisions.now.inst.tasks }
    requires first_crane { v < length decisions.now.inst.cranes }
    requires of_first { assigned decisions.now.decisions i ≡ Some v }
    requires second_task { j < length decisions.now.inst.tasks }
    requires second_crane { w < length decisions.now.inst.cranes }
    requires of_second { assigned decisions.now.decisions j ≡ Some w }
    ensures ticks { result ≡ added decisions.now.inst decisions.now.decisions i j }
    ensures bound { IfSome result (λ ticks. ticks ≤ MOST_WORK + MOST_DISTANCE) }
{
    match decisions.instance().turn() {
        Turn::OneWay => upward_ticks(decisions.instance(), i, v, j, w),
        Turn::Free => decisions.forced_by_cranes(i, j),
    }
}

/// Adds an arc for what the cranes of two tasks ask for, one way or the other, where the second has one.
#[inline(always)]
fn push_between(decisions: &Decisions, one: u16, crane: u16, other: u16, arena: &mut ArcArena)
    requires crane { assigned decisions.now.decisions one ≡ Some crane }
    requires range { crane < length decisions.now.inst.cranes }
    requires one { one < length decisions.now.inst.tasks }
    requires other { other < length decisions.now.inst.tasks }
    requires nodes { arena.old.nodes ≡ length decisions.now.inst.tasks }
    requires room { length (with_added one other
        (added decisions.now.inst decisions.now.decisions one other)
        (added decisions.now.inst decisions.now.decisions other one)
        (reverse arena.old.arcs)) ≤ arena.old.cap }
    ensures arcs { reverse arena.new.arcs ≡ with_added one other
        (added decisions.now.inst decisions.now.decisions one other)
        (added decisions.now.inst decisions.now.decisions other one)
        (reverse arena.old.arcs) }
    ensures low { AreLow (reverse arena.old.arcs) → AreLow (reverse arena.new.arcs) }
    ensures nodes { arena.new.nodes ≡ arena.old.nodes }
    ensures cap { arena.new.cap ≡ arena.old.cap }
{
    let Some(others) = decisions.crane_of(other) else {
        return;
    };
    if let Some(len) = added(decisions, one, crane, other, others) {
        arena.push(one, other, len);
    } else if let Some(len) = added(decisions, other, others, one, crane) {
        arena.push(other, one, len);
    }
}

/// Puts a task on a crane, and adds the arcs of this.
fn assign(decisions: &mut Decisions, task: u16, crane: u16, arena: &mut ArcArena)
    requires open { IsOpen decisions.old.inst decisions.old.decisions (Assign task crane) }
    requires room { IsRoomy decisions.old.inst arena.old }
    requires arcs { AreArcs decisions.old.inst decisions.old.decisions (reverse arena.old.arcs) }
    requires low { AreLow (reverse arena.old.arcs) }
    ensures decisions { decisions.new ≡ record decisions.old {
      decisions = Assign task crane ∷ decisions.old.decisions;
    } }
    ensures fits { Fits decisions.old.inst decisions.new.decisions }
    ensures room { IsRoomy decisions.old.inst arena.new }
    ensures arcs { AreArcs decisions.old.inst decisions.new.decisions (reverse arena.new.arcs) }
    ensures low { AreLow (reverse arena.new.arcs) }
    ensures over { IsOver (reverse arena.old.arcs) (reverse arena.new.arcs) }
{
    let count = decisions.instance().task_count();
    decisions.add(Decision::Assign(task, crane));
    for other in 0..count {
        push_between(decisions, task, crane, other, arena);
    }
}

/// Puts one of two tasks that conflict first, and adds the arc of this.
fn order(decisions: &mut Decisions, first: u16, second: u16, arena: &mut ArcArena)
    requires open { IsOpen decisions.old.inst decisions.old.decisions (Order first second) }
    requires first { first < length decisions.old.inst.tasks }
    requires second { second < length decisions.old.inst.tasks }
    requires valid { Valid decisions.old.inst }
    requires room { IsRoomy decisions.old.inst arena.old }
    requires arcs { AreArcs decisions.old.inst decisions.old.decisions (reverse arena.old.arcs) }
    requires low { AreLow (reverse arena.old.arcs) }
    ensures decisions { decisions.new ≡ record decisions.old {
      decisions = Order first second ∷ decisions.old.decisions;
    } }
    ensures fits { Fits decisions.old.inst decisions.new.decisions }
    ensures room { IsRoomy decisions.old.inst arena.new }
    ensures arcs { AreArcs decisions.old.inst decisions.new.decisions (reverse arena.new.arcs) }
    ensures low { AreLow (reverse arena.new.arcs) }
    ensures over { IsOver (reverse arena.old.arcs) (reverse arena.new.arcs) }
{
    decisions.add(Decision::Order(first, second));
    push_forced(decisions, first, second, arena);
}

/// Decides one thing more, and adds the arcs of this.
pub(crate) fn decide(decisions: &mut Decisions, decision: Decision, arena: &mut ArcArena)
    requires open { IsOpen decisions.old.inst decisions.old.decisions decision }
    requires valid { Valid decisions.old.inst }
    requires room { IsRoomy decisions.old.inst arena.old }
    requires arcs { AreArcs decisions.old.inst decisions.old.decisions (reverse arena.old.arcs) }
    requires low { AreLow (reverse arena.old.arcs) }
    ensures decisions { decisions.new ≡ record decisions.old {
      decisions = decision ∷ decisions.old.decisions;
    } }
    ensures fits { Fits decisions.old.inst decisions.new.decisions }
    ensures room { IsRoomy decisions.old.inst arena.new }
    ensures arcs { AreArcs decisions.old.inst decisions.new.decisions (reverse arena.new.arcs) }
    ensures low { AreLow (reverse arena.new.arcs) }
    ensures over { IsOver (reverse arena.old.arcs) (reverse arena.new.arcs) }
{
    match decision {
        Decision::Assign(task, crane) => assign(decisions, task, crane, arena),
        Decision::Order(first, second) => order(decisions, first, second, arena),
    }
}

/// Adds the arcs from a task that are forced before any decision.
fn push_row(decisions: &Decisions, from: u16, arena: &mut ArcArena)
    requires none { decisions.now.decisions ≡ [] }
    requires from { from < length decisions.now.inst.tasks }
    requires room { IsRoomy decisions.now.inst arena.old }
    requires opening { AreOpening decisions.now.inst (reverse arena.old.arcs) (MOST_TASKS * from) }
    ensures room { IsRoomy decisions.now.inst arena.new }
    ensures low { AreLow (reverse arena.old.arcs) → AreLow (reverse arena.new.arcs) }
    ensures opening { AreOpening decisions.now.inst (reverse arena.new.arcs) (MOST_TASKS * (from + 1)) }
{
    for to in 0..decisions.instance().task_count() {
        push_forced(decisions, from, to, arena);
    }
}

/// The arcs that are forced before any decision, and room for those of all decisions.
pub(crate) fn open_arena(alloc: Global, decisions: &Decisions) -> Result<ArcArena, OutOfMemory>
    requires none { decisions.now.decisions ≡ [] }
    ensures room { IfOk result (λ arena. IsRoomy decisions.now.inst arena) }
    ensures arcs { IfOk result (λ arena. AreArcs decisions.now.inst [] (reverse arena.arcs)) }
    ensures low { IfOk result (λ arena. AreLow (reverse arena.arcs)) }
    ensures valid { IfOk result (λ _. Valid decisions.now.inst) }
{
    let tasks = decisions.instance().task_count();
    let room = tasks as u32 * (tasks as u32).saturating_sub(1);
    let mut arena = ArcArena::new(alloc, tasks, room)?;
    for from in 0..tasks {
        push_row(decisions, from, &mut arena);
    }
    Ok(arena)
}
