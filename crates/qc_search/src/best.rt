//! The incumbent: the best schedule that is known.
ghost use Rattle.std.specs.Prelude.{◌≡◌, ◌↔◌, ◌<◌, ◌≤◌, ◌⊎◌, ℕ, List, All, IsTrue, length};
ghost use Rattle.qc_close.specs.Model.{AreLeast, HasStarts, IsNodeEnd, schedule_with, most_start};
ghost use Rattle.qc_num.specs.declared.bound.Bound.TheVariants.{Least};
ghost use Rattle.qc_search.specs.Progress.{Improves, IsPassed, IsTaken, shown_best};

use crate::progress::Progress;
use qc_model::{Direction, Schedule, Slot};
use qc_num::{Bound, Tick};
use qc_starts::Starts;

/// Whether an end improves on that of the incumbent, if there is one.
pub(crate) fn improves(end: Tick, incumbent_end: Bound) -> bool
    ensures { IsTrue result ↔ Improves end incumbent_end }
{
    match incumbent_end {
        Bound::Least(least) => end < least,
        Bound::Never => true,
    }
}

/// Writes the schedule of a node with a solution: each task with its crane and earliest start.
pub(crate) fn keep(starts: &Starts, incumbent: &mut Schedule)
    requires starts { HasStarts starts.now.inst starts.now.decisions }
    requires count { length incumbent.old ≡ length starts.now.inst.tasks }
    ensures { (begins : List ℕ) → AreLeast starts.now.inst starts.now.decisions begins
        → incumbent.new ≡ schedule_with starts.now.inst starts.now.decisions begins }
{
    for task in 0..starts.instance().task_count() {
        let crane = starts.crane_of(task).unwrap_or(0);
        let start = starts.start(task);
        incumbent.set(task, Slot { crane, start });
    }
}

/// Updates the incumbent at a node that ends then: a complete one that ends before the incumbent replaces it.
pub(crate) fn meet(end: Tick, starts: &Starts, way: Direction, progress: &mut Progress)
    requires starts { HasStarts starts.now.inst starts.now.decisions }
    requires end { IsNodeEnd starts.now.inst starts.now.decisions end }
    requires soon { end ≤ most_start }
    requires count { length progress.old.incumbent ≡ length starts.now.inst.tasks }
    ensures { IsPassed starts.now.inst starts.now.decisions progress.old progress.new
        ⊎ IsTaken starts.now.inst way starts.now.decisions progress.old progress.new }
{
    if !improves(end, progress.incumbent_end) {
        return;
    }
    if !starts.complete() {
        return;
    }
    let stuck = starts.stuck();
    prove!(!stuck);
    keep(starts, &mut progress.incumbent);
    progress.incumbent_end = Bound::Least(end);
    progress.way = way;
}

/// The incumbent as it is answered, if there is one: one of the down part is turned back.
pub(crate) fn shown_best(progress: Progress, cranes: u16) -> Option<Schedule>
    requires { (end : ℕ) → progress.incumbent_end ≡ Least end
        → All (λ slot. slot.crane < cranes) progress.incumbent }
    ensures { result ≡ shown_best cranes progress.incumbent_end progress.way progress.incumbent }
{
    let mut best = progress.incumbent;
    match (progress.incumbent_end, progress.way) {
        (Bound::Never, _) => None,
        (Bound::Least(_), Direction::Up) => Some(best),
        (Bound::Least(_), Direction::Down) => {
            best.flip(cranes);
            Some(best)
        }
    }
}
