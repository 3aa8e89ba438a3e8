//! The order of a ship's tasks, or the first of the planner's entries with which it has a ring.
ghost use Rattle.std.specs.Prelude.{◌≡◌, length, true, IfOk, IfErr};
ghost use Rattle.qc_stow.specs.Moves.{AreMoves};
ghost use Rattle.qc_tasks.specs.InstanceOf.{before_of, tasks_of};
ghost use Rattle.qc_tasks.specs.Marks.{IsOrder};
ghost use Rattle.qc_tasks.specs.Rings.{IsNoInstance, has_ring};
ghost use Rattle.qc_tasks.specs.declared.instance.TasksError.TheVariants.{Ring};

use crate::TasksError;
use crate::before::before_of;
use crate::rings::has_ring;
use qc_model::{Pair, Task};
use qc_num::OutOfMemory;
use qc_ship::{NamePair, Ship};
use qc_stow::Row;
use std::alloc::Global;

/// Whether there is a ring with these entries.
fn rings_with(
    alloc: Global,
    ship: &Ship,
    entries: &[NamePair],
    rows: &[Row],
    tasks: &[Task],
) -> Result<bool, OutOfMemory>
    requires tasks { tasks.now ≡ tasks_of ship.now rows.now }
    requires moves { AreMoves rows.now }
    ensures { IfOk result (λ ring. ring ≡ has_ring (length tasks.now)
        (before_of ship.now.ordered entries.now rows.now tasks.now)) }
{
    let before = before_of(alloc, ship.ordered(), entries, rows, tasks)?;
    Ok(has_ring(before.as_slice(), tasks.len()))
}

/// The number of the first entry with which there is a ring, where there is one with all.
fn first_ring(alloc: Global, ship: &Ship, rows: &[Row], tasks: &[Task]) -> Result<u32, OutOfMemory>
    requires tasks { tasks.now ≡ tasks_of ship.now rows.now }
    requires moves { AreMoves rows.now }
    requires ring { has_ring (length tasks.now)
        (before_of ship.now.ordered ship.now.before rows.now tasks.now) ≡ true }
    ensures { IfOk result (λ k. IsNoInstance ship.now rows.now (Ring k)) }
{
    let entries = ship.before();
    for count in 1..entries.len() + 1 {
        if rings_with(alloc, ship, &entries[..count], rows, tasks)? {
            return Ok(count as u32);
        }
    }
    unreachable!()
}

/// The pairs of which the first task must end before the second starts.
pub(crate) fn order_of(
    alloc: Global,
    ship: &Ship,
    rows: &[Row],
    tasks: &[Task],
) -> Result<Vec<Pair>, TasksError>
    requires tasks { tasks.now ≡ tasks_of ship.now rows.now }
    requires moves { AreMoves rows.now }
    ensures order { IfOk result (λ v. IsOrder ship.now rows.now v.items) }
    ensures ring { IfErr result (IsNoInstance ship.now rows.now) }
{
    let before = before_of(alloc, ship.ordered(), ship.before(), rows, tasks)?;
    if !has_ring(before.as_slice(), tasks.len()) {
        return Ok(before);
    }
    drop(before);
    let number = first_ring(alloc, ship, rows, tasks)?;
    Err(TasksError::Ring(number))
}
