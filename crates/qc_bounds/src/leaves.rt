//! The leaf of a node that needs no branching, or gets none.

ghost use Rattle.std.specs.Prelude.{◌≡◌, ◌↔◌, ◌≤◌, [], IfSome, IsSome, IsTrue, MatchOption, length};
ghost use Rattle.qc_close.specs.Crews.{IsCrewOf};
ghost use Rattle.qc_close.specs.Model.{IsClosable, early};
ghost use Rattle.qc_num.specs.Bounds.{IsAtMost};
ghost use Rattle.qc_num.specs.declared.bound.Bound.TheVariants.{Least};
ghost use Rattle.qc_num.specs.Paths.{HasRoom};
ghost use Rattle.qc_bounds.specs.Closed.{IsClosedBy, IsSpentBy};
ghost use Rattle.qc_bounds.specs.Packed.{IsPackedShown};

use crate::tries::{late_tasks, latest_tasks};
use crate::work::{late_work, work_bound};
use qc_close::Crew;
use qc_num::{Bound, Path, Tick};
use qc_starts::Starts;

/// The leaf that a node gets in a bound tree. The tasks of a chain, a ring or a
/// clash stand in a path.
#[derive(Clone, Copy, PartialEq, Eq)]
pub enum LeafKind {
    /// Tasks, each forced after the one before it, that end when the node does: a critical chain.
    Chain,
    /// Tasks, each forced after the one before it, and the first after the last.
    Ring,
    /// An end before which the work doesn't fit, in ticks.
    Work(Tick),
    /// Tasks of which no two can run together, whichever cranes do them, and the end that they show.
    Clash(Tick),
}

/// Whether an end is at least a bound; none is at least `Never`.
fn is_late(end: Tick, bound: Bound) -> bool
    ensures { IsTrue result ↔ IsAtMost bound (Least end) }
{
    match bound {
        Bound::Least(least) => least <= end,
        Bound::Never => false,
    }
}

/// Packed tasks that show a bound, if it is a number, or a later end.
fn late_by(node: &Starts, crew: &Crew, bound: Bound, path: &mut Path) -> Option<Tick>
    requires known { IsSome (early node.now.inst node.now.decisions) }
    requires crew { IsCrewOf crew.now node.now.inst node.now.decisions }
    requires room { HasRoom (length node.now.inst.tasks) path.old }
    ensures shows { IfSome result (λ end. IsPackedShown node.now.inst node.now.decisions path.new.items end
        × IsAtMost bound (Least end)) }
    ensures count { IsSome result → length path.new.items ≤ length node.now.inst.tasks }
    ensures room { path.new.capacity ≡ path.old.capacity }
{
    match bound {
        Bound::Never => None,
        Bound::Least(end) => late_tasks(node, crew, end, path),
    }
}

/// Tries to fathom a node against the incumbent's end `best`. Tried in order: infeasible (ring);
/// critical chain, if it reaches `best` or nothing is left to decide; packed tasks, if some that are tried reach `best`;
/// `best` itself, if the work doesn't fit before it. `None`: branch. The path is empty but for a chain, a
/// ring or a clash.
pub fn close(node: &Starts, crew: &Crew, best: Bound, path: &mut Path) -> Option<LeafKind>
    requires crew { IsCrewOf crew.now node.now.inst node.now.decisions }
    requires room { HasRoom (length node.now.inst.tasks) path.old }
    ensures closed { IsClosable node.now.inst node.now.decisions best → IsSome result }
    ensures leaf { MatchOption result
        (path.new.items ≡ [])
        (λ leaf. IsClosedBy node.now.inst node.now.decisions best leaf path.new.items) }
    ensures count { length path.new.items ≤ length node.now.inst.tasks }
    ensures room { path.new.capacity ≡ path.old.capacity }
{
    let _inst = node.instance(); // for what it ensures
    if node.stuck() {
        node.cycle(path);
        return Some(LeafKind::Ring);
    }
    if is_late(node.ends(), best) || node.complete() {
        node.why_path(path);
        return Some(LeafKind::Chain);
    }
    if let Some(end) = late_by(node, crew, best, path) {
        return Some(LeafKind::Clash(end));
    }
    path.clear();
    let end = late_work(crew, best)?;
    Some(LeafKind::Work(end))
}

/// The leaf of a node that is not branched on: a ring where it is infeasible, the critical chain
/// where nothing is left to decide; else what shows the latest end, of the critical chain, the work and
/// packed tasks, in this order where they show the same. The path is empty but for a chain, a ring or a
/// clash.
pub fn spent(node: &Starts, crew: &Crew, path: &mut Path) -> LeafKind
    requires crew { IsCrewOf crew.now node.now.inst node.now.decisions }
    requires room { HasRoom (length node.now.inst.tasks) path.old }
    ensures leaf { IsSpentBy node.now.inst node.now.decisions result path.new.items }
    ensures count { length path.new.items ≤ length node.now.inst.tasks }
    ensures room { path.new.capacity ≡ path.old.capacity }
{
    let _inst = node.instance(); // for what it ensures
    if node.stuck() {
        node.cycle(path);
        return LeafKind::Ring;
    }
    if node.complete() {
        node.why_path(path);
        return LeafKind::Chain;
    }
    let (bound, end) = (work_bound(crew), node.ends());
    if let Some(later) = latest_tasks(node, crew, bound.max(end) + 1, path) {
        return LeafKind::Clash(later);
    }
    if bound <= end {
        node.why_path(path);
        return LeafKind::Chain;
    }
    path.clear();
    LeafKind::Work(bound)
}
