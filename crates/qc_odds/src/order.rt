//! The order in which tasks are gone through.

ghost use Rattle.std.specs.Prelude.{◌≡◌, ◌<◌, length, map, IfOk, OnOk};
ghost use Rattle.std.specs.List.{range_with_len};
ghost use Rattle.std.specs.List.Sorted.{IsPermutation, IsSorted};
ghost use Rattle.qc_model.specs.Rules.{Feasible};

use qc_model::{Instance, Slot};
use qc_num::{OutOfMemory, Tick};
use std::alloc::Global;

/// The turn of a task: turns are in order of their fields, the first one first.
#[derive(Clone, Copy, PartialEq, Eq, PartialOrd, Ord)]
pub(crate) struct PlannedStart {
    /// When the plan starts the task.
    pub(crate) start: Tick,
    /// The number of the task.
    pub(crate) task: u16,
}

ghost use Rattle.qc_odds.specs.Order.{AreTurns, turn_cmp, turn_of};

/// The turns of all tasks, by number.
fn turns_by_number(
    alloc: Global,
    inst: &Instance,
    slots: &[Slot],
) -> Result<Vec<PlannedStart>, OutOfMemory>
    requires { Feasible inst.now slots.now }
    ensures { IfOk result
        (λ turns. turns.items ≡ map (turn_of slots.now) (range_with_len 0 (length inst.now.tasks))) }
{
    let mut turns = Vec::new(alloc);
    for task in 0..inst.task_count() {
        turns.push(PlannedStart {
            start: slots[task as usize].start,
            task,
        })?;
    }
    Ok(turns)
}

/// Sorts turns.
fn sort(turns: &mut Vec<PlannedStart>) -> Result<(), OutOfMemory>
    ensures permutation { IsPermutation turns.old.items turns.new.items }
    ensures sorted { OnOk result (IsSorted turn_cmp turns.new.items) }
{
    turns.sort()?;
    Ok(())
}

/// The turns of all tasks by their planned starts, so that each comes behind those that lead it.
pub(crate) fn turns_of(
    alloc: Global,
    inst: &Instance,
    slots: &[Slot],
) -> Result<Vec<PlannedStart>, OutOfMemory>
    requires { Feasible inst.now slots.now }
    ensures { IfOk result (λ turns. AreTurns inst.now slots.now turns.items) }
{
    let mut turns = turns_by_number(alloc, inst, slots)?;
    sort(&mut turns)?;
    Ok(turns)
}
