//! One move of a stowage list.

ghost use Rattle.std.specs.Prelude.{◌≡◌};
ghost use Rattle.csv.specs.Records.{fields_of};
ghost use Rattle.qc_stow.specs.Moves.{is_discharge, is_load};
ghost use Rattle.qc_stow.specs.Rows.{move_in, row_in};
ghost use Rattle.qc_ship.specs.Cells.{cell_in};
ghost use Rattle.qc_num.specs.Reading.{with_fault};

use crate::columns::Columns;
use crate::fault::StowKind;
use crate::fields::length_text;
use crate::id::Id;
use csv::ByteRecord;
use qc_lines::field;
use qc_ship::Cell;

/// Which way a container goes.
#[derive(Clone, Copy, PartialEq, Eq, Hash)]
pub enum Move {
    /// Off the ship.
    Discharge,
    /// Onto the ship.
    Load,
}

impl Move {
    /// Whether the container goes off the ship.
    pub fn is_discharge(self) -> bool
        ensures { result ≡ is_discharge self }
    {
        self == Move::Discharge
    }

    /// Whether the container goes onto the ship.
    pub fn is_load(self) -> bool
        ensures { result ≡ is_load self }
    {
        self == Move::Load
    }
}

/// The move of one container.
#[derive(Drop)]
pub struct Row {
    pub id: Id,
    pub kind: Move,
    pub cell: Cell,
}

impl Row {
    /// The way that a field writes.
    fn move_in(field: &[u8]) -> Result<Move, StowKind>
        ensures { result ≡ move_in field.now }
    {
        if field == b"D".as_slice() {
            Ok(Move::Discharge)
        } else if field == b"L".as_slice() {
            Ok(Move::Load)
        } else {
            Err(StowKind::MoveKind)
        }
    }

    /// The cell that a field writes.
    fn cell_in(field: &[u8]) -> Result<Cell, StowKind>
        ensures { result ≡ with_fault StowKind.Cell (cell_in field.now) }
    {
        match Cell::read(field) {
            Ok(cell) => Ok(cell),
            Err(fault) => Err(StowKind::Cell(fault)),
        }
    }

    /// The row that the fields of a record write in these columns, or the first fault of them.
    pub(crate) fn read(fields: &ByteRecord, at: Columns) -> Result<Row, StowKind>
        ensures { result ≡ row_in at (fields_of fields.now) }
    {
        if fields.len() != at.all {
            return Err(StowKind::Fields);
        }
        let Some(id) = Id::of(field(fields, at.id)) else {
            return Err(StowKind::Id);
        };
        let kind = Row::move_in(field(fields, at.kind))?;
        let cell = Row::cell_in(field(fields, at.cell))?;
        if field(fields, at.length) != length_text(cell.bay) {
            return Err(StowKind::LengthMismatch);
        }
        Ok(Row { id, kind, cell })
    }
}
