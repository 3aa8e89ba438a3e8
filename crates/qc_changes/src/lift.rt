//! What must be lifted.

ghost use Rattle.std.specs.Prelude.{◌≡◌, [], ◌++◌, map, List, filter, IfOk, OnOk};
ghost use Rattle.std.specs.List.Sorted.{IsPermutation, IsNonDecreasingBy};
ghost use Rattle.qc_ship.specs.Cells.{CellView};
ghost use Rattle.qc_stow.specs.declared.row.Move.{Move};
ghost use Rattle.qc_changes.specs.Classes.{cells_of, changed, is_still};
ghost use Rattle.qc_changes.specs.Floors.{IsFloor, known};
ghost use Rattle.qc_changes.specs.Lifts.{IsLiftedFloor, Lifts};
ghost use Rattle.qc_changes.specs.MoveList.{row_of};

use crate::floors::{Floors, is_over_any, put};
use crate::plan::Plan;
use crate::rows::put_rows;
use indexmap::IndexMap;
use qc_num::OutOfMemory;
use qc_ship::Cell;
use qc_stow::Row;
use std::alloc::Global;

/// Puts the cells of the containers that stand still behind others.
fn push_still(cells: &mut Vec<Cell>, plan: &Plan<'_>, other: &Plan<'_>) -> Result<(), OutOfMemory>
    ensures { OnOk result (cells.new.items
        ≡ cells.old.items ++ cells_of (filter (is_still other.now) plan.now)) }
{
    for container in plan.containers() {
        if other.is_still(container) {
            cells.push(container.cell)?;
        }
    }
    Ok(())
}

/// Puts cells in order of rising tiers.
fn sort(cells: &mut Vec<Cell>)
    ensures same { IsPermutation cells.old.items cells.new.items }
    ensures rises { IsNonDecreasingBy (λ cell. cell.tier) cells.new.items }
{
    cells.sort_unstable_by_key(|cell| cell.tier);
}

/// Notes which of the cells are worked, since they are over a worked one: one pass from the lowest
/// tier up, as nothing of a higher tier is under a cell.
fn lift(floors: &mut Floors, cells: &[Cell]) -> Result<(), OutOfMemory>
    requires { IsNonDecreasingBy (λ cell. cell.tier) cells.now }
    ensures { OnOk result ((worked : List CellView) → IsFloor (known floors.old) worked
        → (lifted : List CellView)
        × (IsFloor (known floors.new) (worked ++ lifted) × Lifts worked cells.now lifted)) }
{
    for cell in cells {
        if is_over_any(floors, cell) {
            put(floors, cell)?;
        }
    }
    Ok(())
}

/// Notes what is worked: the cells of these moves, which are all that goes or comes of itself, and what
/// must be lifted over them. The floors and the cells are empty before.
fn fill(
    floors: &mut Floors,
    cells: &mut Vec<Cell>,
    off: &[Row],
    on: &[Row],
    first: &Plan<'_>,
    second: &Plan<'_>,
) -> Result<(), OutOfMemory>
    requires floors { floors.old.entries ≡ [] }
    requires cells { cells.old.items ≡ [] }
    requires off { off.now ≡ map (row_of Move.Discharge) (changed first.now second.now) }
    requires on { on.now ≡ map (row_of Move.Load) (changed second.now first.now) }
    ensures { OnOk result (IsLiftedFloor (known floors.new) first.now second.now) }
{
    put_rows(floors, off)?;
    put_rows(floors, on)?;
    push_still(cells, first, second)?;
    sort(cells);
    lift(floors, cells.as_slice())?;
    Ok(())
}

/// What is worked in each column, by these moves and by what must be lifted over them.
pub(crate) fn floors_of(
    alloc: Global,
    off: &[Row],
    on: &[Row],
    first: &Plan<'_>,
    second: &Plan<'_>,
) -> Result<Floors, OutOfMemory>
    requires off { off.now ≡ map (row_of Move.Discharge) (changed first.now second.now) }
    requires on { on.now ≡ map (row_of Move.Load) (changed second.now first.now) }
    ensures { IfOk result (λ floors. IsLiftedFloor (known floors) first.now second.now) }
{
    let mut floors = IndexMap::new(alloc);
    let mut cells = Vec::new(alloc);
    let filled = fill(&mut floors, &mut cells, off, on, first, second);
    drop(cells);
    match filled {
        Ok(()) => Ok(floors),
        Err(error) => {
            drop(floors);
            Err(error)
        }
    }
}
