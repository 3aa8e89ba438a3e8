//! How a search came out.
ghost use Rattle.std.specs.Prelude.{◌≡◌, IsTrue};
ghost use Rattle.qc_num.specs.Bounds.{IsAtMost};
ghost use Rattle.qc_search.specs.Progress.{bound_end};
ghost use Rattle.qc_search.specs.Run.{outcome};

use crate::done::Kind;
use qc_num::{Bound, Tick};

/// Compares the lower bound with the end of the incumbent.
pub(crate) fn outcome(bound: Bound, incumbent_end: Bound) -> Kind
    ensures { result ≡ outcome bound incumbent_end }
{
    match (bound, incumbent_end) {
        (Bound::Never, _) => Kind::Infeasible,
        (Bound::Least(_), Bound::Never) => Kind::Budget,
        (Bound::Least(least), Bound::Least(end)) => {
            if end <= least {
                Kind::Optimal
            } else {
                Kind::Budget
            }
        }
    }
}

/// The end of an incumbent, if there is one.
pub(crate) fn end_of(incumbent_end: Bound) -> Option<Tick>
    ensures { result ≡ bound_end incumbent_end }
{
    match incumbent_end {
        Bound::Never => None,
        Bound::Least(end) => Some(end),
    }
}

/// Whether a bound is more than another one.
pub(crate) fn is_more(bound: Bound, other: Bound) -> bool
    ensures more { IsTrue result → IsAtMost other bound }
    ensures no_more { ¬ IsTrue result → IsAtMost bound other }
{
    match (bound, other) {
        (_, Bound::Never) => false,
        (Bound::Never, Bound::Least(_)) => true,
        (Bound::Least(bound), Bound::Least(other)) => other < bound,
    }
}
