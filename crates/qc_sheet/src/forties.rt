//! Where the 40-foot containers of a task stand.

ghost use Rattle.std.specs.Prelude.{◌≡◌, ◌<◌, ℕ, ◌&&◌, ◌||◌, ◌==◌, false, length, slice_index_or, All, IfOk};
ghost use Rattle.qc_ship.specs.Cells.{IsCell, is_forty};
ghost use Rattle.qc_sheet.specs.Entries.{IsNextMark, Marks, spot};
ghost use Rattle.qc_sheet.specs.Order.{height_of};

use crate::order::{height, row_at};
use qc_num::OutOfMemory;
use qc_stow::Row;
use std::alloc::Global;

/// How many pairs of a row and a height there are.
pub(crate) const SPOTS: usize = 10_000;

/// How many heights there are.
pub(crate) const HEIGHTS: u8 = 100;

/// A table without marks.
pub(crate) fn blank(alloc: Global, size: usize) -> Result<Vec<bool>, OutOfMemory>
    ensures size { IfOk result (λ v. length v.items ≡ size) }
    ensures clear { IfOk result (λ v. (k : ℕ) → slice_index_or v.items k false ≡ false) }
{
    Ok(vec![in alloc; false; size]?)
}

/// The place of a row and a height in a table.
fn spot(row: u8, high: u8) -> usize
    requires row { row < 100 }
    requires high { high < 100 }
    ensures spot { result ≡ spot row high }
    ensures bound { result < SPOTS }
{
    100 * row as usize + high as usize
}

/// Marks the move in the table where it is one of 40 feet.
fn mark(row: &Row, table: &mut [bool])
    requires { length table.old ≡ SPOTS }
    ensures marked { (k : ℕ) → slice_index_or table.new k false ≡ (slice_index_or table.old k false
        || (is_forty row.now.cell && (spot row.now.cell.row (height_of row.now) == k))) }
    ensures cell { IsCell row.now.cell }
    ensures high { height_of row.now < 100 }
{
    if row.cell.is_forty() {
        table[spot(row.cell.row, height(row))] = true;
    }
}

/// Marks where the 40-foot containers among these moves stand.
pub(crate) fn mark_forties(rows: &[Row], numbers: &[u32], table: &mut [bool])
    requires numbers { All (λ n. n < length rows.now) numbers.now }
    requires size { length table.old ≡ SPOTS }
    requires clear { (k : ℕ) → slice_index_or table.old k false ≡ false }
    ensures { Marks rows.now numbers.now table.new }
{
    for number in numbers {
        mark(row_at(rows, *number), table);
    }
}

/// The least height from this one on that is marked in the row; 100 where none is.
pub(crate) fn next_forty(table: &[bool], row: u8, high: u8) -> u8
    requires size { length table.now ≡ SPOTS }
    requires row { row < 100 }
    requires high { high < 100 }
    ensures { IsNextMark table.now row high result }
{
    for next in high..HEIGHTS {
        if table[spot(row, next)] {
            return next;
        }
    }
    HEIGHTS
}
