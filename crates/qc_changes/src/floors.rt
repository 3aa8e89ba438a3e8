//! What is worked under a cell.

ghost use Rattle.std.specs.Prelude.{◌≡◌, [], ◌∷◌, ◌++◌, List, OnOk};
ghost use Rattle.std.specs.Option.{option_copied};
ghost use Rattle.qc_ship.specs.Cells.{CellView};
ghost use Rattle.qc_changes.specs.Over.{is_over_any};
ghost use Rattle.qc_changes.specs.Floors.{IsFloor, KnowsMore, is_lower, known, lower};

use crate::column::{Column, column_at};
use indexmap::IndexMap;
use qc_num::OutOfMemory;
use qc_ship::Cell;
use std::alloc::Global;

/// The lowest tier at which a container goes or comes, by its column.
pub(crate) type Floors = IndexMap<Column, u8>;

/// The lower of a tier and the lowest one before it.
fn lower(lowest: Option<&u8>, tier: u8) -> u8
    ensures { result ≡ lower (option_copied lowest.entry) tier }
{
    match lowest {
        Some(lowest) => { if *lowest < tier { *lowest } else { tier } }
        None => tier,
    }
}

/// Notes that a tier of a column is worked.
fn put_in_column(floors: &mut Floors, column: Column, tier: u8) -> Result<(), OutOfMemory>
    ensures { OnOk result (KnowsMore (known floors.old) (known floors.new) column tier) }
{
    let lowest = lower(floors.get(&column), tier);
    floors.insert(column, lowest)?;
    Ok(())
}

/// Notes that a cell is worked.
pub(crate) fn put(floors: &mut Floors, cell: &Cell) -> Result<(), OutOfMemory>
    ensures { OnOk result ((cells : List CellView) → IsFloor (known floors.old) cells
        → IsFloor (known floors.new) (cells ++ cell.now ∷ [])) }
{
    let (first, last) = cell.slots();
    let fore = column_at(cell, first);
    let aft = column_at(cell, last);
    put_in_column(floors, fore, cell.tier)?;
    put_in_column(floors, aft, cell.tier)?;
    Ok(())
}

/// Whether a lower tier of the column is worked.
fn is_over_work(floors: &Floors, column: Column, tier: u8) -> bool
    ensures { result ≡ is_lower (known floors.now column) tier }
{
    match floors.get(&column) {
        Some(lowest) => *lowest < tier,
        None => false,
    }
}

/// Whether a cell is over one that is worked.
pub(crate) fn is_over_any(floors: &Floors, cell: &Cell) -> bool
    ensures { (cells : List CellView) → IsFloor (known floors.now) cells
        → result ≡ is_over_any cell.now cells }
{
    let (first, last) = cell.slots();
    is_over_work(floors, column_at(cell, first), cell.tier)
        || is_over_work(floors, column_at(cell, last), cell.tier)
}
