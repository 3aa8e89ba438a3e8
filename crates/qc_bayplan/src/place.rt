//! The place that a LOC tells.

ghost use Rattle.std.specs.Prelude.{◌≡◌, IfOk};
ghost use Rattle.qc_bayplan.specs.Places.{cell_at, cell_of, is_iso, trimmed};

use crate::fault::BayPlanKind;
use crate::text::{text_of, trimmed};
use qc_edifact::Segment;
use qc_num::OutOfMemory;
use qc_ship::Cell;
use std::alloc::Global;

/// Whether the agency numbers places in the way of ISO 9711; none is taken for it.
fn is_iso(agency: &[u8]) -> bool
    ensures { result ≡ is_iso agency.now }
{
    agency.is_empty() || agency == b"5".as_slice()
}

/// The cell that a place of this agency and this text is.
fn cell_of(agency: &[u8], place: &[u8]) -> Result<Cell, BayPlanKind>
    ensures { result ≡ cell_of (trimmed agency.now) (trimmed place.now) }
{
    if !is_iso(trimmed(agency)) {
        return Err(BayPlanKind::CellKind);
    }
    match Cell::read(trimmed(place)) {
        Ok(cell) => Ok(cell),
        Err(fault) => Err(BayPlanKind::Cell(fault)),
    }
}

/// The cell that a LOC tells, or why it tells none.
pub(crate) fn cell_at(
    alloc: Global,
    loc: &Segment<'_>,
) -> Result<Result<Cell, BayPlanKind>, OutOfMemory>
    ensures { IfOk result (λ cell. cell ≡ cell_at loc.now) }
{
    let agency = text_of(alloc, loc, 2, 2)?;
    let place = text_of(alloc, loc, 2, 0)?;
    Ok(cell_of(agency.as_slice(), place.as_slice()))
}
