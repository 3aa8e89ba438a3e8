//! Bounds: what no schedule beats.

ghost use Rattle.std.specs.Prelude.{◌≡◌, ◌↔◌, IsTrue};

use crate::Tick;

/// A lower bound of the ends of all schedules, in ticks; `Never`, above every number, where there
/// is no schedule.
#[derive(Clone, Copy, PartialEq, Eq)]
pub enum Bound {
    /// Nothing ends before this tick.
    Least(Tick),
    /// Nothing ends at all.
    Never,
}

impl Bound {
    ghost use Rattle.qc_num.specs.declared.bound.Bound.TheVariants.{Least};
    ghost use Rattle.qc_num.specs.Bounds.{IsAtMost, lesser};

    /// The lesser of both.
    pub fn min(self, other: Bound) -> Bound
        ensures { result ≡ lesser self other }
    {
        match (self, other) {
            (Bound::Least(one), Bound::Least(two)) => Bound::Least(one.min(two)),
            (Bound::Least(one), Bound::Never) => Bound::Least(one),
            (Bound::Never, bound) => bound,
        }
    }

    /// Whether the bound is at least `end`, so that no schedule ends before it. `Never` reaches
    /// every end.
    pub fn reaches(self, end: Tick) -> bool
        ensures { IsTrue result ↔ IsAtMost (Least end) self }
    {
        match self {
            Bound::Least(least) => least >= end,
            Bound::Never => true,
        }
    }
}
