//! The moves of a task with what decides their order.

ghost use Rattle.std.specs.Prelude.{◌≡◌, ◌<◌, length, map, All, IfOk, OnOk};
ghost use Rattle.std.specs.List.Sorted.{IsPermutation, IsSorted};

use crate::forties::next_forty;
use crate::order::{feet, height, lane, row_at};
use qc_num::OutOfMemory;
use qc_stow::Row;
use std::alloc::Global;

/// A move of a task. Entries are in order of their fields, the first one first.
///
/// Lanes are worked one after the other. Within a lane the 40-foot containers, which stand over both
/// stacks of 20 feet, part those of 20 feet into layers: none of a layer can be made before the
/// 40-foot move that parts it from the layer before, and that one not before all of its own layer.
#[derive(Clone, Copy, PartialEq, Eq, PartialOrd, Ord)]
pub(crate) struct Entry {
    /// From port to starboard.
    pub(crate) lane: u8,
    /// The height of the next 40-foot move of the lane, which may be the move itself; 100 where there
    /// is none.
    pub(crate) next: u8,
    /// 20 or 40.
    pub(crate) feet: u8,
    pub(crate) bay: u16,
    /// How late the tier comes among those over one another.
    pub(crate) height: u8,
    /// The number of the move.
    pub(crate) number: u32,
}

impl Entry {
    ghost use Rattle.qc_sheet.specs.declared.entry.Entry.{Entry};
    ghost use Rattle.qc_sheet.specs.Order.{row_at};
    ghost use Rattle.qc_sheet.specs.Entries.{IsEntry};
    ghost use Rattle.qc_sheet.specs.declared.forties.TheConstants.{SPOTS};

    /// The entry of a move, by the table of the 40-foot containers.
    fn of(rows: &[Row], table: &[bool], number: u32) -> Entry
        requires number { number < length rows.now }
        requires size { length table.now ≡ SPOTS }
        ensures number { result.number ≡ number }
        ensures entry { IsEntry rows.now table.now result }
    {
        let row = row_at(rows, number);
        let feet = feet(&row.cell);
        let height = height(row);
        Entry {
            lane: lane(row.cell.row),
            next: next_forty(table, row.cell.row, height),
            feet,
            bay: row.cell.bay,
            height,
            number,
        }
    }
}

ghost use Rattle.qc_sheet.specs.Entries.{IsEntry};
ghost use Rattle.qc_sheet.specs.Order.{entry_cmp};
ghost use Rattle.qc_sheet.specs.declared.forties.TheConstants.{SPOTS};

/// The entries of moves, by the table of the 40-foot containers.
pub(crate) fn entries_of(
    alloc: Global,
    rows: &[Row],
    table: &[bool],
    numbers: &[u32],
) -> Result<Vec<Entry>, OutOfMemory>
    requires numbers { All (λ n. n < length rows.now) numbers.now }
    requires size { length table.now ≡ SPOTS }
    ensures numbers { IfOk result (λ v. map (λ e. e.number) v.items ≡ numbers.now) }
    ensures entries { IfOk result (λ v. All (IsEntry rows.now table.now) v.items) }
{
    let mut entries = Vec::new(alloc);
    for number in numbers {
        entries.push(Entry::of(rows, table, *number))?;
    }
    Ok(entries)
}

/// Puts entries in order.
pub(crate) fn sort(entries: &mut Vec<Entry>) -> Result<(), OutOfMemory>
    ensures permutation { IsPermutation entries.old.items entries.new.items }
    ensures sorted { OnOk result (IsSorted entry_cmp entries.new.items) }
{
    entries.sort()?;
    Ok(())
}
