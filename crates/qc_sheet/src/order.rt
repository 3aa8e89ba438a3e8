//! The moves of a task, and the cells of moves.

ghost use Rattle.std.specs.Prelude.{◌≡◌, ◌<◌, ◌≤◌, length, IfOk};
ghost use Rattle.qc_ship.specs.Cells.{IsCell};
ghost use Rattle.qc_stow.specs.Moves.{most_moves};
ghost use Rattle.qc_sheet.specs.Order.{feet, height_of, lane, moves_of, row_at};

use qc_model::Task;
use qc_num::OutOfMemory;
use qc_ship::Cell;
use qc_stow::{Move, Row};
use qc_tasks::is_move_of;
use std::alloc::Global;

/// A move by its number, from 0.
pub(crate) fn row_at(rows: &[Row], number: u32) -> &Row
    requires { number < length rows.now }
    ensures { result.now ≡ row_at rows.now number }
{
    &rows[number as usize]
}

/// The numbers of a task's moves.
pub(crate) fn moves_of(alloc: Global, rows: &[Row], task: &Task) -> Result<Vec<u32>, OutOfMemory>
    requires { length rows.now ≤ most_moves }
    ensures { IfOk result (λ v. v.items ≡ moves_of rows.now task.now) }
{
    let mut numbers = Vec::new(alloc);
    for (number, row) in rows.iter().enumerate() {
        if is_move_of(task, row) {
            numbers.push(number as u32)?;
        }
    }
    Ok(numbers)
}

/// The lane of a row: from port to starboard, 100 on the centre line.
pub(crate) fn lane(row: u8) -> u8
    requires { row < 100 }
    ensures { result ≡ lane row }
{
    if row % 2 == 0 { 100 - row } else { 100 + row }
}

/// The length of a cell, in feet.
pub(crate) fn feet(cell: &Cell) -> u8
    ensures feet { result ≡ feet cell.now }
    ensures cell { IsCell cell.now }
{
    if cell.is_forty() { 40 } else { 20 }
}

/// How late the move comes among those over one another: the highest tier first where containers are
/// lifted, the lowest first where they are set down.
pub(crate) fn height(row: &Row) -> u8
    requires { IsCell row.now.cell }
    ensures height { result ≡ height_of row.now }
    ensures bound { result < 100 }
{
    match row.kind {
        Move::Discharge => 100 - row.cell.tier,
        Move::Load => row.cell.tier,
    }
}
