//! The search of one part of a tree.
ghost use Rattle.std.specs.Prelude.{◌≡◌, ◌↔◌, ◌≤◌, ◌∷◌, [], IfOk, IfSome, IsTrue, length};
ghost use Rattle.qc_close.specs.Model.{Direction, most_tasks};
ghost use Rattle.qc_num.specs.Paths.{HasRoom};
ghost use Rattle.qc_starts.specs.Seen.{IsReached};
ghost use Rattle.qc_search.specs.Progress.{WritesNodes, emptied, left_by};
ghost use Rattle.qc_search.specs.Walk.{IsChild, WereMade, due_at, from_child};

use crate::lines::put_reach;
use crate::node::visit;
use crate::place::Node;
use crate::progress::Progress;
use qc_dist::{in_reach, next_child};
use qc_io::{Sink, WriteFault};
use qc_model::{Decision, Direction};
use qc_starts::Starts;

/// Whether a child is within reach.
fn is_reached(starts: &Starts, child: Decision) -> bool
    requires { IsChild starts.now.inst starts.now.decisions child }
    ensures { IsTrue result ↔ IsReached starts.now.inst child }
{
    match child {
        Decision::Assign(task, crane) => in_reach(starts.instance(), task, crane),
        Decision::Order(_, _) => true,
    }
}

/// Whether the child is within reach; if so, goes to it.
fn descend(node: &mut Node, child: Decision) -> bool
    requires { IsChild node.old.inst node.old.decisions child }
    ensures inst { node.new.inst ≡ node.old.inst }
    ensures reached { IsTrue result → IsReached node.old.inst child }
    ensures there { IsTrue result → node.new.decisions ≡ child ∷ node.old.decisions }
    ensures out { ¬ IsTrue result → ¬ IsReached node.old.inst child }
    ensures stays { ¬ IsTrue result → node.new ≡ node.old }
{
    if !is_reached(node.starts(), child) {
        return false;
    }
    node.go(child);
    true
}

/// Goes to the next node within reach: this child or, where there is none, the next one that is left.
/// Writes the lines of children out of reach. Whether there was one.
fn advance<K: Sink>(
    node: &mut Node,
    child: Option<Decision>,
    progress: &Progress,
    sink: &mut K,
) -> Result<bool, WriteFault>
    requires made { WereMade node.old.inst node.old.decisions }
    requires child { IfSome child (IsChild node.old.inst node.old.decisions) }
    ensures goes { (way : Direction) → WritesNodes [] (K.view sink.old) (K.view sink.new)
        node.old.inst way (from_child node.old.inst node.old.decisions child)
        (left_by (due_at node.old.inst node.new.decisions) result)
        progress.now progress.now (emptied result) }
    ensures fewer { IfOk result (λ live. length (due_at node.old.inst node.new.decisions live)
        ≤ length (from_child node.old.inst node.old.decisions child)) }
    ensures inst { node.new.inst ≡ node.old.inst }
    ensures made { WereMade node.old.inst node.new.decisions }
{
    let mut next = child;
    loop {
        if let Some(decision) = next {
            if descend(node, decision) {
                return Ok(true);
            }
            put_reach(&progress.path, sink)?;
            next = next_child(node.instance(), decision);
        } else if let Some(newest) = node.go_back() {
            next = next_child(node.instance(), newest);
        } else {
            return Ok(false);
        }
    }
}

/// Goes through one part of a tree from its root on, and writes its lines.
fn walk_part<K: Sink>(
    node: &mut Node,
    way: Direction,
    progress: &mut Progress,
    sink: &mut K,
) -> Result<(), WriteFault>
    requires root { node.old.decisions ≡ [] }
    requires count { length progress.old.incumbent ≡ length node.old.inst.tasks }
    requires room { HasRoom most_tasks progress.old.path }
    requires few { progress.old.branched ≤ progress.old.limit }
    ensures inst { node.new.inst ≡ node.old.inst }
    ensures writes { WritesNodes [] (K.view sink.old) (K.view sink.new) node.old.inst way ([] ∷ []) []
        progress.old progress.new result }
{
    loop {
        let child = visit(node.starts(), node.crew(), way, progress, sink)?;
        if !advance(node, child, progress, sink)? {
            return Ok(());
        }
    }
}

/// Searches one part of a tree from its root on, writes its lines, and is back at the root then.
pub(crate) fn search_part<K: Sink>(
    node: &mut Node,
    way: Direction,
    progress: &mut Progress,
    sink: &mut K,
) -> Result<(), WriteFault>
    requires root { node.old.decisions ≡ [] }
    requires count { length progress.old.incumbent ≡ length node.old.inst.tasks }
    requires room { HasRoom most_tasks progress.old.path }
    requires few { progress.old.branched ≤ progress.old.limit }
    ensures inst { node.new.inst ≡ node.old.inst }
    ensures root { node.new.decisions ≡ [] }
    ensures writes { WritesNodes [] (K.view sink.old) (K.view sink.new) node.old.inst way ([] ∷ []) []
        progress.old progress.new result }
{
    let written = walk_part(node, way, progress, sink);
    node.leave();
    written
}
