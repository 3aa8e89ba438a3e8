//! Containers on board, and the plan that has them all.

ghost use Rattle.std.specs.Prelude.{◌≡◌};
ghost use Rattle.qc_bayplan.specs.Plan.{AreContainers};
ghost use Rattle.qc_bayplan.specs.Sorts.{is_departure};

use qc_ship::Cell;
use qc_stow::Id;
use std::marker::Model;

/// The most containers of a bay plan.
pub const MOST_CONTAINERS: usize = 25_000;

/// Which plan of a call at a port a file is.
#[derive(Clone, Copy, PartialEq, Eq)]
pub enum Which {
    /// The plan of the ship as it arrives, in which each container has an id.
    Arrival,
    /// The plan for its departure, in which a container may have no id yet.
    Departure,
}

impl Which {
    pub(crate) fn is_departure(self) -> bool
        ensures { result ≡ is_departure self }
    {
        self == Which::Departure
    }
}

/// A container and the cell in which it stands.
#[derive(Drop)]
pub struct Container {
    pub id: Id,
    pub cell: Cell,
}

/// The bay plan of a whole ship: at most 25,000 containers, of which no two have one id or
/// overlapping cells.
#[derive(Drop)]
pub struct BayPlan {
    containers: Vec<Container>,
    unnamed: u32,
    bundled: u32,
    other: u32,
}

impl Model for BayPlan {
    ghost use Rattle.qc_bayplan.specs.Plan.{AreContainers, PlanView};

    ghost Value = { PlanView };

    ghost view = { λ p. record {
      containers = p.containers.items;
      unnamed = p.unnamed;
      bundled = p.bundled;
      other = p.other;
    } };

    ghost invariant = { λ p. AreContainers p.containers.items };
}

impl BayPlan {
    /// The plan of these containers.
    pub(crate) fn of(containers: Vec<Container>, unnamed: u32, bundled: u32, other: u32) -> BayPlan
        requires { AreContainers containers.items }
        ensures containers { result.containers ≡ containers.items }
        ensures unnamed { result.unnamed ≡ unnamed }
        ensures bundled { result.bundled ≡ bundled }
        ensures other { result.other ≡ other }
    {
        BayPlan {
            containers,
            unnamed,
            bundled,
            other,
        }
    }

    /// The containers in the order of the file.
    pub fn containers(&self) -> &[Container]
        ensures containers { result.now ≡ self.now.containers }
        ensures apart { AreContainers self.now.containers }
    {
        self.containers.as_slice()
    }

    /// How many containers had no id, and so have one that is made of their cell.
    pub fn unnamed(&self) -> u32
        ensures { result ≡ self.now.unnamed }
    {
        self.unnamed
    }

    /// How many further containers were named at the place of one, bundled with it; they aren't in
    /// the plan.
    pub fn bundled(&self) -> u32
        ensures { result ≡ self.now.bundled }
    {
        self.bundled
    }

    /// How many places have equipment and no container; they aren't in the plan.
    pub fn other(&self) -> u32
        ensures { result ≡ self.now.other }
    {
        self.other
    }
}
