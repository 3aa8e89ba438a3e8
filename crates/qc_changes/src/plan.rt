//! A plan in which containers are looked up.

ghost use Rattle.std.specs.Prelude.{◌≡◌, ◌≢◌, [], AllPairs, IfOk, List, OnOk};
ghost use Rattle.std.specs.Option.{option_copied};
ghost use Rattle.qc_bayplan.specs.declared.plan.Container.{Container};
ghost use Rattle.qc_changes.specs.Classes.{is_still};
ghost use Rattle.qc_changes.specs.Counts.{is_gone};
ghost use Rattle.qc_changes.specs.Plans.{Tells, is_in, place_of};

use indexmap::IndexMap;
use qc_bayplan::Container;
use qc_num::OutOfMemory;
use qc_ship::Cell;
use std::alloc::Global;
use std::marker::Model;

/// The numbers of a cell.
#[derive(Clone, Copy)]
struct Place {
    bay: u16,
    row: u8,
    tier: u8,
}

/// The numbers of a cell.
fn place_of(cell: &Cell) -> Place
    ensures { result ≡ place_of cell.now }
{
    Place {
        bay: cell.bay,
        row: cell.row,
        tier: cell.tier,
    }
}

/// Adds the cell of each container, by its id, to a map that is empty.
fn add_places<'a>(
    places: &mut IndexMap<&'a [u8], Place>,
    containers: &'a [Container],
) -> Result<(), OutOfMemory>
    requires empty { places.old.entries ≡ [] }
    requires ids { AllPairs (λ a b. a.id ≢ b.id) containers.now }
    ensures { OnOk result (Tells places.new containers.now) }
{
    for container in containers {
        places.insert(container.id.as_bytes(), place_of(&container.cell))?;
    }
    Ok(())
}

/// Whether a container that stands here, if it does, stands in this cell.
fn is_in(cell: &Cell, place: Option<&Place>) -> bool
    ensures { result ≡ is_in cell.now (option_copied place.entry) }
{
    match place {
        Some(place) => { cell.bay == place.bay && cell.row == place.row && cell.tier == place.tier }
        None => false,
    }
}

/// The containers of a plan, with their cells by their ids.
#[derive(Drop)]
pub(crate) struct Plan<'a> {
    containers: &'a [Container],
    places: IndexMap<&'a [u8], Place>,
}

impl<'a> Model for Plan<'a> {
    ghost Value = { List Container };

    ghost view = { λ plan. plan.containers.now };

    ghost invariant = { λ plan. Tells plan.places plan.containers.now };
}

impl<'a> Plan<'a> {
    /// The plan of these containers.
    pub(crate) fn new(alloc: Global, containers: &'a [Container]) -> Result<Plan<'a>, OutOfMemory>
        requires { AllPairs (λ a b. a.id ≢ b.id) containers.now }
        ensures { IfOk result (λ plan. plan ≡ containers.now) }
    {
        let mut places = IndexMap::new(alloc);
        match add_places(&mut places, containers) {
            Ok(()) => Ok(Plan { containers, places }),
            Err(error) => {
                drop(places);
                Err(error)
            }
        }
    }

    /// The containers in the order of the plan.
    pub(crate) fn containers(&self) -> &[Container]
        ensures { result.now ≡ self.now }
    {
        self.containers
    }

    /// Whether the plan hasn't the container at all.
    pub(crate) fn is_gone(&self, container: &Container) -> bool
        ensures { result ≡ is_gone self.now container.now }
    {
        self.places.get(&container.id.as_bytes()).is_none()
    }

    /// Whether the plan has the container at the same cell.
    pub(crate) fn is_still(&self, container: &Container) -> bool
        ensures { result ≡ is_still self.now container.now }
    {
        is_in(&container.cell, self.places.get(&container.id.as_bytes()))
    }
}
