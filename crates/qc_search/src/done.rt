//! What a search came to.

ghost use Rattle.qc_search.specs.Run.{DoneView};
ghost use Rattle.std.specs.Prelude.{◌≡◌, option_map};

use qc_model::{Direction, Schedule};
use qc_num::{Bound, Tick};
use std::marker::Model;

/// How a search came out.
#[derive(Clone, Copy, PartialEq, Eq)]
pub enum Kind {
    /// No schedule of the instance's turn ends before the incumbent.
    Optimal,
    /// There is no schedule of the instance's turn.
    Infeasible,
    /// All branchings are spent, and the lower bound is less than the incumbent's end, or there is no
    /// incumbent.
    Budget,
}

/// What a search came to.
#[derive(Drop)]
pub struct Done {
    pub(crate) kind: Kind,
    pub(crate) bound: Bound,
    pub(crate) branched: u32,
    pub(crate) given: Option<Tick>,
    pub(crate) way: Direction,
    pub(crate) best: Option<Schedule>,
}

impl Model for Done {
    ghost Value = { DoneView };

    ghost view = { λ done. record {
      kind = done.kind;
      bound = done.bound;
      branched = done.branched;
      given = done.given;
      best = done.best;
      way = done.way;
    } };
}

impl Done {
    /// How the search came out.
    pub fn kind(&self) -> Kind
        ensures { result ≡ self.now.kind }
    {
        self.kind
    }

    /// The lower bound, in ticks, which is the tree's value: no schedule of the instance's turn ends earlier; `Never`: there
    /// is none.
    pub fn bound(&self) -> Bound
        ensures { result ≡ self.now.bound }
    {
        self.bound
    }

    /// The tree's number of branchings.
    pub fn branched(&self) -> u32
        ensures { result ≡ self.now.branched }
    {
        self.branched
    }

    /// When the schedule that the search began with ends, in ticks; `None` exactly where it began with none.
    pub fn given(&self) -> Option<Tick>
        ensures { result ≡ self.now.given }
    {
        self.given
    }

    /// The best schedule that is known: one that was met, or the one that the search began with where none ends before
    /// it; `None` exactly where there is neither.
    pub fn best(&self) -> Option<&Schedule>
        ensures { option_map (λ sched. sched.now) result ≡ self.now.best }
    {
        self.best.as_ref()
    }

    /// The way in which the best schedule is seen: up or down where cranes go one way, though one that goes down
    /// may go up too; up where they go as they like.
    pub fn way(&self) -> Direction
        ensures { result ≡ self.now.way }
    {
        self.way
    }

    /// The best schedule, given away.
    pub fn into_best(self) -> Option<Schedule>
        ensures { result ≡ self.best }
    {
        self.best
    }
}
