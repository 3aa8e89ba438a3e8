//! Ships.

ghost use Rattle.std.specs.Prelude.{◌≡◌, ◌-ℤ◌, pos, position};
ghost use Rattle.qc_ship.specs.ShipFile.{ship_with};
ghost use Rattle.qc_ship.specs.Ship.{ShipView, IsShip, takes, place_of_bay, greatest_place};
ghost use Rattle.qc_ship.specs.ShipFields.{view_of};

use qc_model::{Crane, Phase};
use qc_num::{Bay, Tick};
use std::marker::Model;

/// Two hatches that aren't worked at the same time, by their numbers on board.
#[derive(Clone, Copy, PartialEq, Eq)]
pub struct HatchPair {
    pub a: u16,
    pub b: u16,
}

/// A task by its name: a hatch, by its number on board, and a phase. Whether it has moves hangs on the list.
#[derive(Clone, Copy, PartialEq, Eq)]
pub struct TaskName {
    pub hatch: u16,
    pub phase: Phase,
}

/// Two different tasks, of which the first ends before the second starts.
#[derive(Clone, Copy, PartialEq, Eq)]
pub struct NamePair {
    pub first: TaskName,
    pub second: TaskName,
}

/// A task, and the tick before which it doesn't start: at most 1,000,000.
#[derive(Clone, Copy, PartialEq, Eq)]
pub struct NameTick {
    pub name: TaskName,
    pub tick: Tick,
}

/// What a ship file says of the ship and its cranes.
#[derive(Drop)]
pub struct Ship {
    hatches: Vec<u16>,
    places: Vec<u16>,
    in_decimetres: bool,
    gap: u16,
    travel: Tick,
    deck_move: Tick,
    hold_move: Tick,
    cover: Tick,
    ordered: bool,
    apart: Vec<HatchPair>,
    before: Vec<NamePair>,
    not_before: Vec<NameTick>,
    cranes: Vec<Crane>,
}

impl Model for Ship {
    ghost Value = { ShipView };

    ghost view = { view_of };

    ghost invariant = { λ f. IsShip (view_of f) };
}

/// The least distance of cranes, the ticks of moves and travel, and the order of restows.
#[derive(Clone, Copy)]
pub(crate) struct Times {
    pub(crate) gap: u16,
    pub(crate) travel: Tick,
    pub(crate) deck_move: Tick,
    pub(crate) hold_move: Tick,
    pub(crate) cover: Tick,
    pub(crate) ordered: bool,
}

impl Ship {
    /// A ship of these parts.
    pub(crate) fn of(
        hatches: Vec<u16>,
        places: Vec<u16>,
        in_decimetres: bool,
        times: Times,
        apart: Vec<HatchPair>,
        before: Vec<NamePair>,
        not_before: Vec<NameTick>,
        cranes: Vec<Crane>,
    ) -> Ship
        requires { IsShip (ship_with in_decimetres hatches.items places.items times
            apart.items before.items not_before.items cranes.items) }
        ensures { result ≡ ship_with in_decimetres hatches.items places.items times
            apart.items before.items not_before.items cranes.items }
    {
        Ship {
            hatches,
            places,
            in_decimetres,
            gap: times.gap,
            travel: times.travel,
            deck_move: times.deck_move,
            hold_move: times.hold_move,
            cover: times.cover,
            ordered: times.ordered,
            apart,
            before,
            not_before,
            cranes,
        }
    }

    /// The hatch numbers, bow to stern: 1 to 60 of them, each 1 to 998.
    pub fn hatches(&self) -> &[u16]
        ensures hatches { result.now ≡ self.now.hatches }
        ensures ship { IsShip self.now }
    {
        self.hatches.as_slice()
    }

    /// The crane bay of each hatch, in the same order: 1, 2 and so on, or decimetres along the rail
    /// where the file gives places.
    pub fn places(&self) -> &[u16]
        ensures places { result.now ≡ self.now.places }
        ensures ship { IsShip self.now }
    {
        self.places.as_slice()
    }

    /// Whether the crane bays are decimetres along the rail: the file gives places.
    pub fn in_decimetres(&self) -> bool
        ensures given { result ≡ self.now.in_decimetres }
        ensures ship { IsShip self.now }
    {
        self.in_decimetres
    }

    /// The greatest crane bay of a hatch.
    pub fn bays(&self) -> Bay
        ensures bays { result ≡ pos (greatest_place self.now) }
        ensures ship { IsShip self.now }
    {
        match self.places.last() {
            Some(place) => Bay::from(*place),
            None => 0,
        }
    }

    /// Bays that two neighbouring cranes keep free between them: one less than the least distance
    /// of their bays.
    pub fn margin(&self) -> Bay
        ensures margin { result ≡ pos self.now.gap -ℤ pos 1 }
        ensures ship { IsShip self.now }
    {
        Bay::from(self.gap) - 1
    }

    /// Ticks of travel per crane bay.
    pub fn travel(&self) -> Tick
        ensures travel { result ≡ self.now.travel }
        ensures ship { IsShip self.now }
    {
        self.travel
    }

    /// Ticks of a move on deck.
    pub fn deck_move(&self) -> Tick
        ensures deck_move { result ≡ self.now.deck_move }
        ensures ship { IsShip self.now }
    {
        self.deck_move
    }

    /// Ticks of a move in the hold.
    pub fn hold_move(&self) -> Tick
        ensures hold_move { result ≡ self.now.hold_move }
        ensures ship { IsShip self.now }
    {
        self.hold_move
    }

    /// Ticks for the hatch cover, which a task in the hold takes besides its moves.
    pub fn cover(&self) -> Tick
        ensures cover { result ≡ self.now.cover }
        ensures ship { IsShip self.now }
    {
        self.cover
    }

    /// Whether a container that is taken off and put on again is discharged before it is loaded.
    pub fn ordered(&self) -> bool
        ensures ordered { result ≡ self.now.ordered }
        ensures ship { IsShip self.now }
    {
        self.ordered
    }

    /// The pairs of hatches that aren't worked at the same time, as written.
    pub fn apart(&self) -> &[HatchPair]
        ensures apart { result.now ≡ self.now.apart }
        ensures ship { IsShip self.now }
    {
        self.apart.as_slice()
    }

    /// The planner's own order, as written: the first task of a pair ends before the second starts.
    pub fn before(&self) -> &[NamePair]
        ensures before { result.now ≡ self.now.before }
        ensures ship { IsShip self.now }
    {
        self.before.as_slice()
    }

    /// The tasks that start at no earlier tick than the one that stands with them, as written; each is
    /// named once.
    pub fn not_before(&self) -> &[NameTick]
        ensures not_before { result.now ≡ self.now.not_before }
        ensures ship { IsShip self.now }
    {
        self.not_before.as_slice()
    }

    /// The cranes along the rail. The reach of each goes from the place of its first hatch to that
    /// of its last.
    pub fn cranes(&self) -> &[Crane]
        ensures cranes { result.now ≡ self.now.cranes }
        ensures ship { IsShip self.now }
    {
        self.cranes.as_slice()
    }

    /// The crane bay of the hatch that takes a bay of the ship; `None` exactly where no hatch takes it.
    pub fn bay_of(&self, cell_bay: u16) -> Option<Bay>
        ensures place { result ≡ place_of_bay self.now cell_bay }
        ensures ship { IsShip self.now }
    {
        match hatch_of_bay(self.hatches.as_slice(), cell_bay) {
            Some(hatch) => Some(Bay::from(self.places[hatch])),
            None => None,
        }
    }
}

/// The index of the first hatch that takes the cells of a bay.
fn hatch_of_bay(hatches: &[u16], cell_bay: u16) -> Option<usize>
    ensures { result ≡ position (λ hatch. takes hatch cell_bay) hatches.now }
{
    hatches.iter().position(|hatch| takes(*hatch, cell_bay))
}

/// Whether a hatch takes the cells of a bay: an even one those of the bays beside it too.
pub fn takes(hatch: u16, cell_bay: u16) -> bool
    ensures { result ≡ takes hatch cell_bay }
{
    hatch == cell_bay || hatch % 2 == 0 && hatch.abs_diff(cell_bay) == 1
}
