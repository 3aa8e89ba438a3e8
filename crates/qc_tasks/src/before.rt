//! Which tasks end before others start.
ghost use Rattle.std.specs.Prelude.{◌≡◌, ◌≤◌, ◌<◌, ◌++◌, ◌&&◌, ℕ, [], length, position, bytes_eq, IfOk, OnOk};
ghost use Rattle.indexmap.specs.IndexMap.{get_by};
ghost use Rattle.qc_stow.specs.Moves.{AreMoves, is_load};
ghost use Rattle.qc_model.specs.Numbers.{most_tasks};
ghost use Rattle.qc_tasks.specs.InstanceOf.{before_of, is_before, is_earlier_phase, is_move_of, is_restow, pairs_from, pairs_with, task_at};
ghost use Rattle.qc_tasks.specs.Marks.{ShareNoName};
ghost use Rattle.qc_tasks.specs.Restows.{NumbersDischarges, ShareNoMove, is_in, is_number, is_pair};

use crate::entries::add_entries;
use crate::moves::is_move_of;
use indexmap::{IndexMap, IndexSet};
use qc_model::{Pair, Task};
use qc_num::OutOfMemory;
use qc_ship::NamePair;
use qc_stow::Row;
use std::alloc::Global;

/// The number of the task that a move belongs to.
fn task_with(tasks: &[Task], row: &Row) -> Option<usize>
    ensures { result ≡ position (λ t. is_move_of t row.now) tasks.now }
{
    tasks.iter().position(|task| is_move_of(task, row))
}

/// Adds the task of each discharge, by the container's id, to a map that is empty.
fn number_discharges<'a>(
    numbers: &mut IndexMap<&'a [u8], usize>,
    tasks: &[Task],
    rows: &'a [Row],
) -> Result<(), OutOfMemory>
    requires empty { numbers.old.entries ≡ [] }
    requires tasks { ShareNoMove tasks.now }
    requires moves { AreMoves rows.now }
    ensures { OnOk result (NumbersDischarges numbers.new tasks.now rows.now) }
{
    for row in rows {
        if row.kind.is_discharge() {
            if let Some(number) = task_with(tasks, row) {
                numbers.insert(row.id.as_bytes(), number)?;
            }
        }
    }
    Ok(())
}

/// The task of each discharge, by the container's id.
fn discharges<'a>(
    alloc: Global,
    tasks: &[Task],
    rows: &'a [Row],
) -> Result<IndexMap<&'a [u8], usize>, OutOfMemory>
    requires tasks { ShareNoMove tasks.now }
    requires moves { AreMoves rows.now }
    ensures { IfOk result (λ numbers. NumbersDischarges numbers tasks.now rows.now) }
{
    let mut numbers = IndexMap::new(alloc);
    match number_discharges(&mut numbers, tasks, rows) {
        Ok(()) => Ok(numbers),
        Err(error) => {
            drop(numbers);
            Err(error)
        }
    }
}

/// The tasks of the discharge and of the load of a container, where the move is its load.
fn restow_of(tasks: &[Task], numbers: &IndexMap<&[u8], usize>, row: &Row) -> Option<(usize, usize)>
    requires { ShareNoMove tasks.now }
    ensures { (i j : ℕ) → j < length tasks.now
        → is_pair i j result ≡ (is_load row.now.kind
        && is_number i (get_by (λ key. bytes_eq row.now.id key.now) numbers.now)
        && is_move_of (task_at tasks.now j) row.now) }
{
    if !row.kind.is_load() {
        return None;
    }
    let first = *numbers.get(&row.id.as_bytes())?;
    let second = task_with(tasks, row)?;
    Some((first, second))
}

/// Adds the tasks of all containers that are discharged and loaded to a set that is empty.
fn add_restows(
    pairs: &mut IndexSet<(usize, usize)>,
    tasks: &[Task],
    rows: &[Row],
    numbers: &IndexMap<&[u8], usize>,
) -> Result<(), OutOfMemory>
    requires empty { pairs.old.keys ≡ [] }
    requires tasks { ShareNoMove tasks.now }
    requires numbers { NumbersDischarges numbers.now tasks.now rows.now }
    ensures { OnOk result ((i j : ℕ) → i < length tasks.now → j < length tasks.now
        → is_in pairs.new i j ≡ is_restow tasks.now rows.now i j) }
{
    for row in rows {
        if let Some(pair) = restow_of(tasks, numbers, row) {
            pairs.insert(pair)?;
        }
    }
    Ok(())
}

/// The tasks of all containers that are discharged and loaded.
fn restows(
    alloc: Global,
    tasks: &[Task],
    rows: &[Row],
) -> Result<IndexSet<(usize, usize)>, OutOfMemory>
    requires tasks { ShareNoMove tasks.now }
    requires moves { AreMoves rows.now }
    ensures { IfOk result (λ pairs. (i j : ℕ) → i < length tasks.now → j < length tasks.now
        → is_in pairs i j ≡ is_restow tasks.now rows.now i j) }
{
    let numbers = discharges(alloc, tasks, rows)?;
    let mut pairs = IndexSet::new(alloc);
    let added = add_restows(&mut pairs, tasks, rows, &numbers);
    drop(numbers);
    match added {
        Ok(()) => Ok(pairs),
        Err(error) => {
            drop(pairs);
            Err(error)
        }
    }
}

/// Whether the tasks are of one hatch, and the first of a lower phase.
fn is_earlier_phase(first: &Task, second: &Task) -> bool
    ensures { result ≡ is_earlier_phase first.now second.now }
{
    first.hatch == second.hatch && first.phase.rank() < second.phase.rank()
}

/// Whether task `first` must end before task `second` starts.
fn is_before(
    tasks: &[Task],
    restows: &IndexSet<(usize, usize)>,
    first: usize,
    second: usize,
) -> bool
    requires first { first < length tasks.now }
    requires second { second < length tasks.now }
    ensures { result ≡ is_before (is_in restows.now) tasks.now first second }
{
    is_earlier_phase(&tasks[first], &tasks[second]) || restows.contains(&(first, second))
}

/// Adds the pairs of a task and those that it must end before.
fn push_before(
    pairs: &mut Vec<Pair>,
    tasks: &[Task],
    restows: &IndexSet<(usize, usize)>,
    first: usize,
) -> Result<(), OutOfMemory>
    requires count { length tasks.now ≤ most_tasks }
    requires first { first < length tasks.now }
    ensures { OnOk result (pairs.new.items ≡ pairs.old.items
        ++ pairs_from (length tasks.now) (is_before (is_in restows.now) tasks.now) first) }
{
    for second in 0..tasks.len() {
        if is_before(tasks, restows, first, second) {
            pairs.push(Pair {
                first: first as u16,
                second: second as u16,
            })?;
        }
    }
    Ok(())
}

/// The pairs of which the first task must end before the second starts.
fn pairs_before(
    alloc: Global,
    tasks: &[Task],
    restows: &IndexSet<(usize, usize)>,
) -> Result<Vec<Pair>, OutOfMemory>
    requires { length tasks.now ≤ most_tasks }
    ensures { IfOk result (λ v. v.items
        ≡ pairs_with (length tasks.now) (is_before (is_in restows.now) tasks.now)) }
{
    let mut pairs = Vec::new(alloc);
    for first in 0..tasks.len() {
        push_before(&mut pairs, tasks, restows, first)?;
    }
    Ok(pairs)
}

/// The tasks of containers that are discharged and loaded, of a ship that keeps these in order; no tasks
/// of another.
fn kept_restows(
    alloc: Global,
    ordered: bool,
    tasks: &[Task],
    rows: &[Row],
) -> Result<IndexSet<(usize, usize)>, OutOfMemory>
    requires tasks { ShareNoMove tasks.now }
    requires moves { AreMoves rows.now }
    ensures { IfOk result (λ pairs. (i j : ℕ) → i < length tasks.now → j < length tasks.now
        → is_in pairs i j ≡ (ordered && is_restow tasks.now rows.now i j)) }
{
    if ordered {
        restows(alloc, tasks, rows)
    } else {
        Ok(IndexSet::new(alloc))
    }
}

/// The pairs of which the first task must end before the second starts: by phases, by restows that are
/// kept in order, and by these entries of the planner's own order.
pub(crate) fn before_of(
    alloc: Global,
    ordered: bool,
    entries: &[NamePair],
    rows: &[Row],
    tasks: &[Task],
) -> Result<Vec<Pair>, OutOfMemory>
    requires count { length tasks.now ≤ most_tasks }
    requires tasks { ShareNoMove tasks.now }
    requires names { ShareNoName tasks.now }
    requires moves { AreMoves rows.now }
    ensures { IfOk result (λ v. v.items ≡ before_of ordered entries.now rows.now tasks.now) }
{
    let mut asked = kept_restows(alloc, ordered, tasks, rows)?;
    match add_entries(&mut asked, tasks, entries) {
        Ok(()) => {
            let pairs = pairs_before(alloc, tasks, &asked);
            drop(asked);
            pairs
        }
        Err(error) => {
            drop(asked);
            Err(error)
        }
    }
}
