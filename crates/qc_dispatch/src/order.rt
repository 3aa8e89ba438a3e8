//! Which task of a plan leads which, and by how long.

ghost use Rattle.std.specs.Prelude.{◌≡◌, ℕ, ◌↔◌, ◌+◌, ◌*◌, ◌<◌, ◌≤◌, IfOk, IsTrue, length};
ghost use Rattle.qc_model.specs.declared.limits.TheConstants.{MOST_DISTANCE, MOST_TASKS};
ghost use Rattle.qc_model.specs.Rules.{Feasible};
ghost use Rattle.qc_dispatch.specs.Order.{ArePaired, AreNear, AreTied, Leads, gap};
ghost use Rattle.qc_dispatch.specs.Marks.{AreMarks};

use qc_dist::distance;
use qc_model::{Instance, MOST_TASKS, Slot, bays_between, travel_over};
use qc_num::{OutOfMemory, Tick};
use std::alloc::Global;

/// Whether two tasks may not run at the same time.
fn are_paired(inst: &Instance, i: u16, j: u16) -> bool
    ensures { IsTrue result ↔ ArePaired inst.now i j }
{
    inst.is_apart(i, j) || inst.is_apart(j, i)
}

/// Whether by the plan one crane does both tasks, or two cranes that would come too near.
fn are_near(inst: &Instance, slots: &[Slot], i: u16, j: u16) -> bool
    requires plan { Feasible inst.now slots.now }
    requires first { i < length inst.now.tasks }
    requires second { j < length inst.now.tasks }
    ensures { IsTrue result ↔ AreNear inst.now slots.now i j }
{
    let (v, w) = (slots[i as usize].crane, slots[j as usize].crane);
    v == w || 0 < distance(inst, i, v, j, w)
}

/// Whether some rule keeps one of the two tasks off until the other is over.
fn are_tied(inst: &Instance, slots: &[Slot], i: u16, j: u16) -> bool
    requires plan { Feasible inst.now slots.now }
    requires first { i < length inst.now.tasks }
    requires second { j < length inst.now.tasks }
    ensures { IsTrue result ↔ AreTied inst.now slots.now i j }
{
    if inst.is_before(i, j) {
        return true;
    }
    if are_paired(inst, i, j) {
        return true;
    }
    are_near(inst, slots, i, j)
}

/// Whether a task leads another.
fn leads(inst: &Instance, slots: &[Slot], i: u16, j: u16) -> bool
    requires plan { Feasible inst.now slots.now }
    requires first { i < length inst.now.tasks }
    requires second { j < length inst.now.tasks }
    ensures { IsTrue result ↔ Leads inst.now slots.now i j }
{
    slots[i as usize].start < slots[j as usize].start && are_tied(inst, slots, i, j)
}

/// The ticks that pass at least between the end of a task and the start of one that it leads.
pub fn gap(inst: &Instance, slots: &[Slot], i: u16, j: u16) -> Tick
    requires plan { Feasible inst.now slots.now }
    requires first { i < length inst.now.tasks }
    requires second { j < length inst.now.tasks }
    ensures ticks { result ≡ gap inst.now slots.now i j }
    ensures bound { result ≤ MOST_DISTANCE }
{
    let (v, w) = (slots[i as usize].crane, slots[j as usize].crane);
    if v == w {
        travel_over(inst, bays_between(inst.task(i).bay, inst.task(j).bay))
    } else {
        distance(inst, i, v, j, w)
    }
}

/// Where a table of pairs of tasks holds a pair.
pub fn cell(i: u16, j: u16) -> usize
    requires first { i < MOST_TASKS }
    requires second { j < MOST_TASKS }
    ensures { result ≡ MOST_TASKS * i + j }
{
    MOST_TASKS as usize * i as usize + j as usize
}

/// Whether of the pair at this place of the table the first task leads the second.
fn mark_at(inst: &Instance, slots: &[Slot], at: u16) -> bool
    requires plan { Feasible inst.now slots.now }
    requires inside { at < length inst.now.tasks * MOST_TASKS }
    ensures { (i j : ℕ) → i < length inst.now.tasks → j < length inst.now.tasks → MOST_TASKS * i + j ≡ at
        → IsTrue result ↔ Leads inst.now slots.now i j }
{
    let (i, j) = (at / MOST_TASKS, at % MOST_TASKS);
    j < inst.task_count() && leads(inst, slots, i, j)
}

/// The table of which task leads which.
pub fn lead_marks(alloc: Global, inst: &Instance, slots: &[Slot]) -> Result<Vec<bool>, OutOfMemory>
    requires { Feasible inst.now slots.now }
    ensures { IfOk result (λ marks. AreMarks inst.now slots.now marks.items) }
{
    let mut marks = Vec::new(alloc);
    for at in 0..inst.task_count() * MOST_TASKS {
        marks.push(mark_at(inst, slots, at))?;
    }
    Ok(marks)
}
