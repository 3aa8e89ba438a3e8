//! What is moved from one plan to another.

ghost use Rattle.std.specs.Prelude.{◌≡◌, ◌≤◌, [], ◌++◌, length, map, IfOk, List, OnOk};
ghost use Rattle.qc_ship.specs.Cells.{CellView};
ghost use Rattle.qc_stow.specs.declared.row.Move.{Move};
ghost use Rattle.qc_stow.specs.declared.row.Row.{Row};
ghost use Rattle.qc_bayplan.specs.declared.plan.Container.{Container};
ghost use Rattle.qc_changes.specs.Classes.{AreLifted, changed, chosen, stands};
ghost use Rattle.qc_changes.specs.Floors.{IsFloor, known};
ghost use Rattle.qc_changes.specs.Lifts.{HaveLifted};
ghost use Rattle.qc_changes.specs.MoveList.{AreParts, row_of};
ghost use Rattle.qc_bayplan.specs.Plan.{AreContainers};
ghost use Rattle.qc_changes.specs.Changes.{AddUp, AreChanges};
ghost use Rattle.qc_changes.specs.ListText.{list_text, read_for};
ghost use Rattle.qc_changes.specs.States.{Leads};
ghost use Rattle.qc_ship.specs.Ship.{ShipView};
ghost use Rattle.qc_stow.specs.Stow.{moves_in};

use crate::counts::counts_of;
use crate::floors::Floors;
use crate::lift::floors_of;
use crate::outcome::Changes;
use crate::plan::Plan;
use crate::rows::{push_changed, push_lifted, sort_off, sort_on};
use qc_bayplan::BayPlan;
use qc_num::OutOfMemory;
use qc_stow::{Move, Row};
use std::alloc::Global;

/// Puts what goes and what comes of itself into two lists that are empty.
fn push_moved(
    off: &mut Vec<Row>,
    on: &mut Vec<Row>,
    first: &Plan<'_>,
    second: &Plan<'_>,
) -> Result<(), OutOfMemory>
    requires off { off.old.items ≡ [] }
    requires on { on.old.items ≡ [] }
    ensures off { OnOk result (off.new.items ≡ map (row_of Move.Discharge) (changed first.now second.now)) }
    ensures on { OnOk result (on.new.items ≡ map (row_of Move.Load) (changed second.now first.now)) }
{
    push_changed(off, Move::Discharge, first, second)?;
    push_changed(on, Move::Load, second, first)
}

/// Puts what is lifted behind what goes and what comes of itself.
fn push_both(
    off: &mut Vec<Row>,
    on: &mut Vec<Row>,
    floors: &Floors,
    first: &Plan<'_>,
    second: &Plan<'_>,
) -> Result<(), OutOfMemory>
    ensures off { OnOk result ((cells : List CellView) → IsFloor (known floors.now) cells
        → off.new.items ≡ off.old.items ++ map (row_of Move.Discharge) (chosen first.now second.now cells)) }
    ensures on { OnOk result ((cells : List CellView) → IsFloor (known floors.now) cells
        → on.new.items ≡ on.old.items ++ map (row_of Move.Load) (chosen first.now second.now cells)) }
{
    push_lifted(off, Move::Discharge, first, second, floors)?;
    push_lifted(on, Move::Load, first, second, floors)
}

/// Finds what is lifted over what goes and comes of itself, and puts it behind both.
fn push_over(
    alloc: Global,
    off: &mut Vec<Row>,
    on: &mut Vec<Row>,
    first: &Plan<'_>,
    second: &Plan<'_>,
) -> Result<(), OutOfMemory>
    requires off { off.old.items ≡ map (row_of Move.Discharge) (changed first.now second.now) }
    requires on { on.old.items ≡ map (row_of Move.Load) (changed second.now first.now) }
    ensures { OnOk result (HaveLifted first.now second.now off.new.items on.new.items) }
{
    let floors = floors_of(alloc, off.as_slice(), on.as_slice(), first, second)?;
    match push_both(off, on, &floors, first, second) {
        Ok(()) => {
            drop(floors);
            Ok(())
        }
        Err(error) => {
            drop(floors);
            Err(error)
        }
    }
}

/// Finds all that goes and all that comes, in two lists that are empty, and puts both in order.
fn fill(
    alloc: Global,
    off: &mut Vec<Row>,
    on: &mut Vec<Row>,
    first: &Plan<'_>,
    second: &Plan<'_>,
) -> Result<(), OutOfMemory>
    requires off { off.old.items ≡ [] }
    requires on { on.old.items ≡ [] }
    ensures { OnOk result ((lifted : List Container) × (AreLifted first.now second.now lifted
        × AreParts first.now second.now lifted off.new.items on.new.items)) }
{
    push_moved(off, on, first, second)?;
    push_over(alloc, off, on, first, second)?;
    sort_off(off);
    sort_on(on);
    Ok(())
}

/// The moves that lead from one plan to another, and how many containers have each class.
fn changes_between(
    alloc: Global,
    first: &Plan<'_>,
    second: &Plan<'_>,
) -> Result<Changes, OutOfMemory>
    requires first { AreContainers first.now }
    requires second { AreContainers second.now }
    ensures { IfOk result (AreChanges first.now second.now) }
{
    let mut off = Vec::new(alloc);
    let mut on = Vec::new(alloc);
    fill(alloc, &mut off, &mut on, first, second)?;
    let counts = counts_of(first, second, off.as_slice().len());
    off.append(&mut on)?;
    Ok(Changes::of(off, counts))
}

/// The moves that lead from the first plan to the second, in an order in which they can be made, and how many
/// containers have each class.
pub fn changes(alloc: Global, first: &BayPlan, second: &BayPlan) -> Result<Changes, OutOfMemory>
    ensures moves { IfOk result (AreChanges first.now.containers second.now.containers) }
    ensures sums { IfOk result (AddUp first.now.containers second.now.containers) }

    // They lead from the first plan to the second, each one legal, and no fewer do.
    ensures leads { IfOk result (λ c. Leads
        (stands first.now.containers) c.rows (stands second.now.containers)) }
    ensures least { IfOk result (λ c. (rows : List Row)
        → Leads (stands first.now.containers) rows (stands second.now.containers)
        → length c.rows ≤ length rows) }

    // The reader of stowage lists makes them of their text, for every ship that has the hatches.
    ensures reads { IfOk result (λ c. (ship : ShipView)
        → moves_in ship (list_text c.rows) ≡ read_for ship c.rows) }
{
    let first = Plan::new(alloc, first.containers())?;
    let second = Plan::new(alloc, second.containers())?;
    let found = changes_between(alloc, &first, &second);
    drop(first);
    drop(second);
    found
}
