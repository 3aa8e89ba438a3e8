//! The container that an EQD tells.

ghost use Rattle.std.specs.Prelude.{◌≡◌, ◌++◌, ◌<◌, ◌∷◌, [], codes, IfOk, OnOk};
ghost use Rattle.qc_num.specs.Reading.{IsReading};
ghost use Rattle.qc_ship.specs.Cells.{cell_text};
ghost use Rattle.qc_bayplan.specs.Containers.{container_at, fits, is_size, judged, left_free, next_container, own_id, size_of};
ghost use Rattle.qc_bayplan.specs.Plan.{IsContainer};
ghost use Rattle.qc_bayplan.specs.Taken.{IsKept, taken_by};

use crate::fault::{BayPlanKind, KindError};
use crate::plan::{Container, MOST_CONTAINERS, Which};
use crate::taken::Taken;
use crate::text::{first_visible, text_of, without_blanks};
use qc_edifact::Segment;
use qc_num::OutOfMemory;
use qc_ship::Cell;
use qc_stow::Id;
use std::alloc::Global;

/// A container, and whether its id was made of its cell.
#[derive(Drop)]
pub(crate) struct Found {
    pub(crate) container: Container,
    pub(crate) unnamed: bool,
}

/// The id that an EQD tells, without any blank.
fn own_id(alloc: Global, eqd: &Segment<'_>) -> Result<Vec<u8>, OutOfMemory>
    ensures { IfOk result (λ id. id.items ≡ own_id eqd.now) }
{
    let text = text_of(alloc, eqd, 2, 0)?;
    without_blanks(alloc, text.as_slice())
}

/// The id that is made of a cell.
fn made_id(alloc: Global, cell: Cell) -> Result<Vec<u8>, OutOfMemory>
    ensures { IfOk result (λ id. id.items ≡ codes "NEW-" ++ cell_text cell) }
{
    let mut id = Vec::new(alloc);
    id.extend_from_slice(b"NEW-")?;
    id.extend_from_slice(cell.write().as_bytes())?;
    Ok(id)
}

/// The first character of the size that an EQD tells.
fn size_of(alloc: Global, eqd: &Segment<'_>) -> Result<Option<u8>, OutOfMemory>
    ensures { IfOk result (λ size. size ≡ size_of eqd.now) }
{
    let text = text_of(alloc, eqd, 3, 0)?;
    Ok(first_visible(text.as_slice()))
}

/// Whether the size is one that is known; none is taken too.
fn is_size(size: Option<u8>) -> bool
    ensures { result ≡ is_size size }
{
    match size {
        Some(b) => b == b'2' || b == b'4' || b == b'9' || (b >= b'G' && b <= b'P'),
        None => true,
    }
}

/// Whether a container of this size can stand at the cell's bay.
fn fits(size: Option<u8>, cell: &Cell) -> bool
    ensures { result ≡ fits size cell.now }
{
    match size {
        Some(b) => {
            if b == b'2' {
                !cell.is_forty()
            } else {
                cell.is_forty()
            }
        }
        None => true,
    }
}

/// The container with this id and this size, at a cell.
fn judged(id: &[u8], unnamed: bool, size: Option<u8>, cell: Cell) -> Result<Found, BayPlanKind>
    ensures found { result ≡ judged id.now unnamed size cell }
    ensures valid { IfOk result (λ found. IsContainer found.container) }
{
    let _forty = cell.is_forty();
    let Some(id) = Id::of(id) else {
        return Err(BayPlanKind::Id);
    };
    if !is_size(size) {
        return Err(BayPlanKind::Size);
    }
    if !fits(size, &cell) {
        return Err(BayPlanKind::LengthMismatch);
    }
    Ok(Found {
        container: Container { id, cell },
        unnamed,
    })
}

/// The container of an EQD at a cell.
fn container_at(
    alloc: Global,
    which: Which,
    eqd: &Segment<'_>,
    cell: Cell,
) -> Result<Found, KindError>
    ensures found { IsReading (λ found. found) (container_at which eqd.now cell) result }
    ensures valid { IfOk result (λ found. IsContainer found.container) }
{
    let own = own_id(alloc, eqd)?;
    let size = size_of(alloc, eqd)?;
    let unnamed = which.is_departure() && own.is_empty();
    let id = if unnamed { made_id(alloc, cell)? } else { own };
    Ok(judged(id.as_slice(), unnamed, size, cell)?)
}

/// Takes the id and the cell of a container, where the earlier ones leave them.
fn claim(
    alloc: Global,
    earlier: &[Container],
    container: &Container,
    taken: &mut Taken,
) -> Result<(), KindError>
    requires { taken.old ≡ taken_by earlier.now }
    ensures free { IsReading (λ _. tt) (left_free earlier.now container.now) result }
    ensures taken { OnOk result (taken.new ≡ taken_by (earlier.now ++ container.now ∷ [])) }
{
    let id = Vec::from_slice(alloc, container.id.as_bytes())?;
    if !taken.take_id(id)? {
        return Err(KindError::Fault(BayPlanKind::IdTwice));
    }
    if !taken.take_cell(container.cell)? {
        return Err(KindError::Fault(BayPlanKind::CellTaken));
    }
    Ok(())
}

/// The container of an EQD after the earlier ones, whose ids and slots are taken, where its place
/// tells this cell.
pub(crate) fn next_container(
    alloc: Global,
    which: Which,
    earlier: &[Container],
    place: Result<Cell, BayPlanKind>,
    eqd: &Segment<'_>,
    taken: &mut Taken,
) -> Result<Found, KindError>
    requires { IsKept earlier.now taken.old }
    ensures found { IsReading (λ found. found)
        (next_container which earlier.now place eqd.now) result }
    ensures kept { IfOk result
        (λ found. IsKept (earlier.now ++ found.container ∷ []) taken.new) }
{
    if earlier.len() == MOST_CONTAINERS {
        return Err(KindError::Fault(BayPlanKind::TooMany));
    }
    let cell = place?;
    let found = container_at(alloc, which, eqd, cell)?;
    claim(alloc, earlier, &found.container, taken)?;
    Ok(found)
}
