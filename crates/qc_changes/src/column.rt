//! Columns of cells.

ghost use Rattle.std.specs.Prelude.{◌≡◌};
ghost use Rattle.qc_changes.specs.Over.{column_at};

use qc_ship::Cell;

/// The cells over one another at a bay of 20 feet: those of one row, all on deck or all in the hold.
#[derive(Clone, Copy, PartialEq, Eq, Hash)]
pub(crate) struct Column {
    pub(crate) bay: u16,
    pub(crate) row: u8,
    pub(crate) on_deck: bool,
}

/// The column of a cell at one of its bays of 20 feet.
pub(crate) fn column_at(cell: &Cell, bay: u16) -> Column
    ensures { result ≡ column_at cell.now bay }
{
    Column {
        bay,
        row: cell.row,
        on_deck: cell.is_deck(),
    }
}
