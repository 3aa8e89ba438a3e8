//! What stays on deck where the hold below is worked. Whether a cover lies between, no bay plan says.

use crate::both::Both;
use indexmap::IndexMap;
use qc_num::OutOfMemory;
use qc_ship::Cell;
use qc_stow::Row;
use std::alloc::Global;

/// The bays of 20 feet below whose deck something is moved: two for each container of 40 feet.
fn worked_holds(alloc: Global, rows: &[Row]) -> Result<IndexMap<u16, bool>, OutOfMemory> {
    let mut bays = IndexMap::new(alloc);
    for row in rows {
        if !row.cell.is_deck() {
            let (first, last) = row.cell.slots();
            bays.insert(first, true)?;
            bays.insert(last, true)?;
        }
    }
    Ok(bays)
}

/// The ids in the list of moves, an entry each.
fn moved_ids(alloc: Global, rows: &[Row]) -> Result<IndexMap<&[u8], bool>, OutOfMemory> {
    let mut ids = IndexMap::new(alloc);
    for row in rows {
        ids.insert(row.id.as_bytes(), true)?;
    }
    Ok(ids)
}

/// Whether a cell is a deck's, and one of its slots has an entry among these bays.
fn is_over(bays: &IndexMap<u16, bool>, cell: &Cell) -> bool {
    let (first, last) = cell.slots();
    cell.is_deck() && (bays.contains_key(&first) || bays.contains_key(&last))
}

/// Counts the containers on deck that have no move, and share a bay of 20 feet with one in the hold that has.
pub(crate) fn stay_on_deck(alloc: Global, both: &Both) -> Result<u64, OutOfMemory> {
    let bays = worked_holds(alloc, both.changes.rows())?;
    let moved = moved_ids(alloc, both.changes.rows())?;
    let mut count = 0u64;
    for container in both.arrival.containers() {
        if is_over(&bays, &container.cell) && !moved.contains_key(&container.id.as_bytes()) {
            count = count.saturating_add(1);
        }
    }
    Ok(count)
}
