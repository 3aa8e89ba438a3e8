//! Both bay plans of a call, and what is moved between them, found again for notes.

use indexmap::IndexMap;
use qc_bayplan::{BayPlan, BayPlanError, Container, Which, read_bay_plan};
use qc_changes::{Changes, changes};
use qc_num::OutOfMemory;
use qc_page::Page;
use qc_ship::Cell;
use std::alloc::Global;

/// Both plans of a call, and what is moved between them.
#[derive(Drop)]
pub(crate) struct Both {
    pub(crate) arrival: BayPlan,
    pub(crate) departure: BayPlan,
    pub(crate) changes: Changes,
}

/// The plan in a file; none where that has a fault.
fn plan_of(page: &mut Page, bytes: &[u8], which: Which) -> Option<BayPlan> {
    if bytes.len() > 8_388_608 {
        return None;
    }
    match read_bay_plan(page.alloc(), bytes, which) {
        Ok(plan) => Some(plan),
        Err(BayPlanError::Fault(_)) => None,
        Err(BayPlanError::OutOfMemory) => page.unless_short(Err(OutOfMemory)),
    }
}

impl Both {
    /// What two files hold; none where one has a fault.
    pub(crate) fn of(page: &mut Page, arrival: &[u8], departure: &[u8]) -> Option<Both> {
        let arrival = plan_of(page, arrival, Which::Arrival)?;
        let departure = plan_of(page, departure, Which::Departure)?;
        let changes = changes(page.alloc(), &arrival, &departure);
        let changes = page.unless_short(changes)?;
        Some(Both {
            arrival,
            departure,
            changes,
        })
    }
}

/// Whether the containers of a plan are 40 feet long, by their ids.
pub(crate) fn lengths_of(
    alloc: Global,
    containers: &[Container],
) -> Result<IndexMap<&[u8], bool>, OutOfMemory> {
    let mut lengths = IndexMap::new(alloc);
    for container in containers {
        lengths.insert(container.id.as_bytes(), container.cell.is_forty())?;
    }
    Ok(lengths)
}

/// A number for each cell.
pub(crate) fn number_of(cell: &Cell) -> u32 {
    u32::from(cell.bay) * 65536 + u32::from(cell.row) * 256 + u32::from(cell.tier)
}

/// Which containers of a plan stand where, by the numbers of their cells.
pub(crate) fn places_of(
    alloc: Global,
    containers: &[Container],
) -> Result<IndexMap<u32, usize>, OutOfMemory> {
    let mut places = IndexMap::new(alloc);
    for (at, container) in containers.iter().enumerate() {
        places.insert(number_of(&container.cell), at)?;
    }
    Ok(places)
}
