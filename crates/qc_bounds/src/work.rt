//! When the work of a node is done at the soonest.

ghost use Rattle.std.specs.Prelude.{◌≤◌, List, MatchOption};
ghost use Rattle.qc_close.specs.Crews.{IsCrewOf};
ghost use Rattle.qc_close.specs.Model.{Decision, MOST_START, IsWorkBound, IsWorkLate, InstanceView};
ghost use Rattle.qc_num.specs.Bounds.{IsAtMost};
ghost use Rattle.qc_num.specs.declared.bound.Bound.TheVariants.{Least};
ghost use Rattle.qc_bounds.specs.Work.{IsWorkShown};

use qc_close::Crew;
use qc_model::MOST_START;
use qc_num::{Bound, Tick};

/// The greatest end before which the work of a node doesn't fit, in ticks; 0 where there is none. It
/// doesn't fit before an end at which its assignment is closed.
pub fn work_bound(crew: &Crew) -> Tick
    ensures bound { (inst : InstanceView) (ds : List Decision) → IsCrewOf crew.now inst ds
        → IsWorkBound inst ds result }
    ensures soon { result ≤ MOST_START }
{
    let _inst = crew.instance(); // for what it ensures
    crew.latest_closed()
}

/// The bound as a tick, where it is a number and the work doesn't fit before it.
pub(crate) fn late_work(crew: &Crew, bound: Bound) -> Option<Tick>
    requires { ¬ IsAtMost bound (Least 0) }
    ensures { (inst : InstanceView) (ds : List Decision) → IsCrewOf crew.now inst ds
        → MatchOption result (¬ IsWorkLate inst ds bound) (IsWorkShown inst ds bound) }
{
    let _inst = crew.instance(); // for what it ensures
    match bound {
        Bound::Never => None,
        Bound::Least(end) => {
            if end <= MOST_START && crew.closed(end) {
                Some(end)
            } else {
                None
            }
        }
    }
}
