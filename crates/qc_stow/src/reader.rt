//! Reading a stowage list.

ghost use Rattle.std.specs.Prelude.{◌≡◌, ◌+◌, ◌<◌, ◌≤◌, [], ◌∷◌, ◌++◌, length, map, All, IfOk, IsSome};
ghost use Rattle.csv.specs.Records.{fields_of};
ghost use Rattle.qc_ship.specs.Ship.{place_of_bay};
ghost use Rattle.qc_num.specs.Reading.{IsReading, each};
ghost use Rattle.qc_stow.specs.Moves.{most_moves};
ghost use Rattle.qc_stow.specs.Stow.{moves_in, next_row, row_on};
ghost use Rattle.qc_stow.specs.Taken.{ids_of, slots_taken};
ghost use Rattle.qc_num.specs.declared.read_error.ReadError.TheVariants.{Fault};

use crate::columns::Columns;
use crate::fault::{StowError, StowFault, StowKind};
use crate::moves::{MOST_MOVES, Moves};
use crate::row::Row;
use crate::taken::Taken;
use csv::ByteRecord;
use qc_lines::{field, first_records};
use qc_ship::Ship;
use std::alloc::Global;

// The header, the most moves, and one record more that tells a longer list.
const RECORDS: usize = MOST_MOVES + 2;

/// The fault of a move, by its place among the moves from 0.
fn fault(at: usize, kind: StowKind) -> StowError
    requires { at ≤ most_moves }
    ensures { result ≡ Fault (record { number = at + 2; kind = kind }) }
{
    StowError::Fault(StowFault {
        number: at as u32 + 2,
        kind,
    })
}

/// The row of a record whose bay a hatch of the ship takes.
fn row_on(fields: &ByteRecord, at: Columns, ship: &Ship) -> Result<Row, StowKind>
    ensures { result ≡ row_on ship.now at (fields_of fields.now) }
{
    let row = Row::read(fields, at)?;
    if ship.bay_of(row.cell.bay).is_none() {
        return Err(StowKind::NoHatch);
    }
    Ok(row)
}

/// The row of a record after the rows of all records before it, whose ids and slots are taken.
fn next_row<'a>(
    earlier: &[Row],
    fields: &'a ByteRecord,
    at: Columns,
    ship: &Ship,
    taken: &mut Taken<'a>,
) -> Result<Row, StowError>
    requires few { length earlier.now ≤ most_moves }
    requires ids { taken.old.ids ≡ ids_of earlier.now }
    requires slots { taken.old.slots ≡ slots_taken earlier.now }
    ensures row { IsReading (λ row. row)
        (next_row ship.now at earlier.now (fields_of fields.now)) result }
    ensures few { IfOk result (λ _. length earlier.now < most_moves) }
    ensures ids { IfOk result (λ row. taken.new.ids ≡ ids_of (earlier.now ++ row ∷ [])) }
    ensures slots { IfOk result (λ row. taken.new.slots ≡ slots_taken (earlier.now ++ row ∷ [])) }
{
    let number = earlier.len();
    if number == MOST_MOVES {
        return Err(fault(number, StowKind::TooMany));
    }
    let row = match row_on(fields, at, ship) {
        Ok(row) => row,
        Err(kind) => return Err(fault(number, kind)),
    };
    if !taken.take_id(row.kind, field(fields, at.id))? {
        return Err(fault(number, StowKind::IdTwice));
    }
    if !taken.take_cell(row.kind, row.cell)? {
        return Err(fault(number, StowKind::CellTaken));
    }
    Ok(row)
}

/// The rows of the records after the header.
fn read_rows(
    alloc: Global,
    records: &[ByteRecord],
    at: Columns,
    ship: &Ship,
) -> Result<Vec<Row>, StowError>
    ensures { IsReading (λ v. v.items)
        (each (next_row ship.now at) [] (map fields_of records.now)) result }
{
    let mut rows = Vec::new(alloc);
    let mut taken = Taken::new(alloc);
    for fields in records {
        match next_row(rows.as_slice(), fields, at, ship, &mut taken) {
            Ok(row) => {
                if rows.push(row).is_err() {
                    drop(taken);
                    drop(rows);
                    return Err(StowError::OutOfMemory);
                }
            }
            Err(error) => {
                drop(taken);
                drop(rows);
                return Err(error);
            }
        }
    }
    drop(taken);
    Ok(rows)
}

/// The moves of a stowage list, or the first fault of its first faulty record. The header names the
/// columns, in any order and among any others. A byte-order mark at the start is dropped, and fields
/// may be quoted, as `csv` reads them.
pub fn read_stow(alloc: Global, text: &[u8], ship: &Ship) -> Result<Moves, StowError>
    ensures moves { IsReading (λ moves. moves) (moves_in ship.now text.now) result }
    ensures hatches { IfOk result (All (λ row. IsSome (place_of_bay ship.now row.cell.bay))) }
{
    let records = first_records(alloc, text, RECORDS)?;
    let Some((header, records)) = records.as_slice().split_first() else {
        return Err(no_header());
    };
    let Ok(at) = Columns::read(header) else {
        return Err(no_header());
    };
    Ok(Moves::of(read_rows(alloc, records, at, ship)?))
}

/// The fault of a list that doesn't begin with its header.
fn no_header() -> StowError
    ensures { result ≡ Fault (record { number = 1; kind = StowKind.Header }) }
{
    StowError::Fault(StowFault {
        number: 1,
        kind: StowKind::Header,
    })
}
