//! The moves of containers.

ghost use Rattle.std.specs.Prelude.{◌≡◌, ◌&&◌, ◌++◌, List, map, OnOk};
ghost use Rattle.std.specs.List.Sorted.{IsPermutation, IsSorted};
ghost use Rattle.qc_ship.specs.Cells.{CellView};
ghost use Rattle.qc_changes.specs.Classes.{changed, chosen, is_still};
ghost use Rattle.qc_changes.specs.Floors.{IsFloor, known};
ghost use Rattle.qc_changes.specs.Over.{is_over_any};
ghost use Rattle.qc_changes.specs.MoveList.{off_cmp, on_cmp, row_of};

use crate::floors::{Floors, is_over_any, put};
use crate::plan::Plan;
use qc_bayplan::Container;
use qc_num::OutOfMemory;
use qc_stow::{Id, Move, Row};
use std::cmp::Ordering;

/// The move of a container.
fn row_of(kind: Move, container: &Container) -> Row
    ensures { result ≡ row_of kind container.now }
{
    Row {
        id: Id::of(container.id.as_bytes()).unwrap(),
        kind,
        cell: container.cell,
    }
}

/// Puts the moves of the containers of a plan that the other hasn't at the same cell behind others.
pub(crate) fn push_changed(
    rows: &mut Vec<Row>,
    kind: Move,
    plan: &Plan<'_>,
    other: &Plan<'_>,
) -> Result<(), OutOfMemory>
    ensures { OnOk result (rows.new.items
        ≡ rows.old.items ++ map (row_of kind) (changed plan.now other.now)) }
{
    for container in plan.containers() {
        if !other.is_still(container) {
            rows.push(row_of(kind, container))?;
        }
    }
    Ok(())
}

/// Whether a container stands still over what is worked.
fn is_lifted(other: &Plan<'_>, floors: &Floors, container: &Container) -> bool
    ensures { (cells : List CellView) → IsFloor (known floors.now) cells → result
        ≡ (is_still other.now container.now && is_over_any container.now.cell cells) }
{
    other.is_still(container) && is_over_any(floors, &container.cell)
}

/// Puts the moves of the containers that stand still over what is worked behind others.
pub(crate) fn push_lifted(
    rows: &mut Vec<Row>,
    kind: Move,
    plan: &Plan<'_>,
    other: &Plan<'_>,
    floors: &Floors,
) -> Result<(), OutOfMemory>
    ensures { OnOk result ((cells : List CellView) → IsFloor (known floors.now) cells
        → rows.new.items ≡ rows.old.items ++ map (row_of kind) (chosen plan.now other.now cells)) }
{
    for container in plan.containers() {
        if is_lifted(other, floors, container) {
            rows.push(row_of(kind, container))?;
        }
    }
    Ok(())
}

/// Notes that the cells of rows are worked.
pub(crate) fn put_rows(floors: &mut Floors, rows: &[Row]) -> Result<(), OutOfMemory>
    ensures { OnOk result ((cells : List CellView) → IsFloor (known floors.old) cells
        → IsFloor (known floors.new) (cells ++ map (λ row. row.cell) rows.now)) }
{
    for row in rows {
        put(floors, &row.cell)?;
    }
    Ok(())
}

/// The order of discharges: by falling tier, then by rising bay and row.
fn off_cmp(row: &Row, other: &Row) -> Ordering
    ensures { result ≡ off_cmp row.now other.now }
{
    other
        .cell
        .tier
        .cmp(&row.cell.tier)
        .then(row.cell.bay.cmp(&other.cell.bay))
        .then(row.cell.row.cmp(&other.cell.row))
}

/// The order of loads: by rising tier, bay and row.
fn on_cmp(row: &Row, other: &Row) -> Ordering
    ensures { result ≡ on_cmp row.now other.now }
{
    row.cell
        .tier
        .cmp(&other.cell.tier)
        .then(row.cell.bay.cmp(&other.cell.bay))
        .then(row.cell.row.cmp(&other.cell.row))
}

/// Puts discharges in order.
pub(crate) fn sort_off(rows: &mut Vec<Row>)
    ensures same { IsPermutation rows.old.items rows.new.items }
    ensures sorted { IsSorted off_cmp rows.new.items }
{
    rows.sort_unstable_by(off_cmp);
}

/// Puts loads in order.
pub(crate) fn sort_on(rows: &mut Vec<Row>)
    ensures same { IsPermutation rows.old.items rows.new.items }
    ensures sorted { IsSorted on_cmp rows.new.items }
{
    rows.sort_unstable_by(on_cmp);
}
