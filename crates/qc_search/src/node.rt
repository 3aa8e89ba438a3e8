//! The line of a node.
ghost use Rattle.std.specs.Prelude.{◌≡◌, ◌<◌, ◌⊎◌, List, ℕ, None, Some, IfOk, length};
ghost use Rattle.qc_bounds.specs.Closed.{IsClosedBy, IsSpentBy};
ghost use Rattle.qc_bounds.specs.declared.leaves.LeafKind.TheVariants.{Chain};
ghost use Rattle.qc_close.specs.Crews.{IsCrewOf};
ghost use Rattle.qc_io.specs.Writes.{Writes};
ghost use Rattle.qc_close.specs.Model.{IsClosable, leaf_value, HasStarts};
ghost use Rattle.qc_num.specs.Bounds.{lesser};
ghost use Rattle.qc_tree.specs.Trees.{leaf_text};
ghost use Rattle.qc_search.specs.Lines.{IsLeafBy, IsWritable, leaf_of};
ghost use Rattle.qc_search.specs.Progress.{IsMet, IsPassed, IsSoon, IsTaken, Visits, cutoff, emptied};

use crate::best::meet;
use crate::choice::pick;
use crate::lines::{put_branch, put_leaf};
use crate::progress::Progress;
use qc_bounds::{LeafKind, close, spent};
use qc_close::Crew;
use qc_io::{Sink, WriteFault};
use qc_model::{Decision, Direction};
use qc_num::Bound;
use qc_starts::Starts;

/// The value of a leaf of the node.
fn value_of(leaf: LeafKind, starts: &Starts) -> Bound
    requires { leaf ≡ Chain → HasStarts starts.now.inst starts.now.decisions }
    ensures value { (tasks : List ℕ) → IsLeafBy starts.now.inst starts.now.decisions leaf tasks
        → leaf_value starts.now.inst starts.now.decisions (leaf_of leaf tasks)
        ≡ Some result }
    ensures soon { (tasks : List ℕ) → IsLeafBy starts.now.inst starts.now.decisions leaf tasks
        → IsSoon result }
{
    match leaf {
        LeafKind::Chain => Bound::Least(starts.ends()),
        LeafKind::Ring => Bound::Never,
        LeafKind::Work(end) | LeafKind::Clash(end) => Bound::Least(end),
    }
}

/// Updates the incumbent at a node that a leaf closes, and answers the leaf's value. Only a chain closes a node with a
/// schedule that could improve on it.
fn meet_closed(leaf: LeafKind, starts: &Starts, way: Direction, progress: &mut Progress) -> Bound
    requires count { length progress.old.incumbent ≡ length starts.now.inst.tasks }
    requires leaf { IsClosedBy starts.now.inst starts.now.decisions (cutoff progress.old) leaf
        progress.old.path.items }
    ensures meets { IsPassed starts.now.inst starts.now.decisions progress.old progress.new
        ⊎ IsTaken starts.now.inst way starts.now.decisions progress.old progress.new }
    ensures value { leaf_value starts.now.inst starts.now.decisions
        (leaf_of leaf progress.old.path.items) ≡ Some result }
    ensures soon { IsSoon result }
{
    match leaf {
        LeafKind::Chain => {
            let end = starts.ends();
            meet(end, starts, way, progress);
            Bound::Least(end)
        }
        LeafKind::Ring => Bound::Never,
        LeafKind::Work(end) | LeafKind::Clash(end) => Bound::Least(end),
    }
}

/// Takes the value of a leaf into the bound, and writes its line. It has no children.
fn leave<K: Sink>(
    leaf: LeafKind,
    value: Bound,
    progress: &mut Progress,
    sink: &mut K,
) -> Result<Option<Decision>, WriteFault>
    requires { IsWritable leaf progress.old.path.items }
    ensures writes { Writes (K.view sink.old) (K.view sink.new)
        (leaf_text (leaf_of leaf progress.old.path.items)) (emptied result) }
    ensures none { IfOk result (λ child. child ≡ None) }
    ensures progress { progress.new ≡ record progress.old {
      bound = lesser progress.old.bound value;
      path = progress.new.path;
    } }
    ensures room { progress.new.path.capacity ≡ progress.old.path.capacity }
{
    progress.bound = progress.bound.min(value);
    put_leaf(leaf, &mut progress.path, sink)?;
    Ok(None)
}

/// Writes the leaf that closes the node.
fn put_closed<K: Sink>(
    leaf: LeafKind,
    starts: &Starts,
    way: Direction,
    progress: &mut Progress,
    sink: &mut K,
) -> Result<Option<Decision>, WriteFault>
    requires met { IsMet starts.now progress.old }
    requires leaf { IsClosedBy starts.now.inst starts.now.decisions (cutoff progress.old) leaf
        progress.old.path.items }
    ensures { Visits (K.view sink.old) (K.view sink.new) starts.now way progress.old progress.new result }
{
    let value = meet_closed(leaf, starts, way, progress);
    leave(leaf, value, progress, sink)
}

/// Writes the leaf of a node that isn't branched on any more.
fn put_spent<K: Sink>(
    leaf: LeafKind,
    starts: &Starts,
    way: Direction,
    progress: &mut Progress,
    sink: &mut K,
) -> Result<Option<Decision>, WriteFault>
    requires met { IsMet starts.now progress.old }
    requires open { ¬ IsClosable starts.now.inst starts.now.decisions (cutoff progress.old) }
    requires spent { progress.old.branched ≡ progress.old.limit }
    requires leaf { IsSpentBy starts.now.inst starts.now.decisions leaf progress.old.path.items }
    ensures { Visits (K.view sink.old) (K.view sink.new) starts.now way progress.old progress.new result }
{
    let value = value_of(leaf, starts);
    leave(leaf, value, progress, sink)
}

/// Branches on the node: writes the line, and answers the first child.
fn put_branching<K: Sink>(
    starts: &Starts,
    way: Direction,
    progress: &mut Progress,
    sink: &mut K,
) -> Result<Option<Decision>, WriteFault>
    requires met { IsMet starts.now progress.old }
    requires starts { HasStarts starts.now.inst starts.now.decisions }
    requires open { ¬ IsClosable starts.now.inst starts.now.decisions (cutoff progress.old) }
    requires left { progress.old.branched < progress.old.limit }
    ensures { Visits (K.view sink.old) (K.view sink.new) starts.now way progress.old progress.new result }
{
    let branch = pick(starts, progress.cutoff());
    progress.branched += 1;
    put_branch(branch, &progress.path, sink)?;
    Ok(Some(branch.first_child()))
}

/// Meets the node: writes its line, and answers its first child, if it has children.
pub(crate) fn visit<K: Sink>(
    starts: &Starts,
    crew: &Crew,
    way: Direction,
    progress: &mut Progress,
    sink: &mut K,
) -> Result<Option<Decision>, WriteFault>
    requires met { IsMet starts.now progress.old }
    requires crew { IsCrewOf crew.now starts.now.inst starts.now.decisions }
    ensures { Visits (K.view sink.old) (K.view sink.new) starts.now way progress.old progress.new result }
{
    let cutoff = progress.cutoff();
    if let Some(leaf) = close(starts, crew, cutoff, &mut progress.path) {
        return put_closed(leaf, starts, way, progress, sink);
    }
    let stuck = starts.stuck();
    prove!(!stuck);
    if progress.branched < progress.limit {
        return put_branching(starts, way, progress, sink);
    }
    let leaf = spent(starts, crew, &mut progress.path);
    put_spent(leaf, starts, way, progress, sink)
}
