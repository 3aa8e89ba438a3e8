//! A line where a node must stand.
ghost use Rattle.std.specs.Prelude.{◌≡◌, ◌<◌, ◌≤◌, ◌^◌, ◌&&◌, ℕ, List, length, true};
ghost use Rattle.std.specs.List.{list_all};
ghost use Rattle.qc_close.specs.Crews.{IsCrewOf};
ghost use Rattle.qc_close.specs.Model.{most_tasks, Valid, is_out_of_reach};
ghost use Rattle.qc_replay.specs.Crewed.{WereOpen};
ghost use Rattle.qc_replay.specs.Earliest.{HasEarly};
ghost use Rattle.qc_replay.specs.Part.{IsJudged, IsNoBranching, Shows, with_branching};
ghost use Rattle.qc_replay.specs.Walk.{is_number, may_order, no_order};
ghost use Rattle.qc_tree.specs.declared.line.Line.TheVariants.{Assign, Chain, Clash, Order, Reach, Ring, Work};
ghost use Rattle.qc_tree.specs.Lines.{IsLine};

use crate::descent::Descent;
use crate::earliest::EarlyStarts;
use crate::leaf::{chain_end, is_ring, is_work_over, packed_end};
use qc_close::Crew;
use qc_dist::{Decisions, in_reach};
use qc_model::{Decision, Turn};
use qc_num::{Bound, Tick};
use qc_tree::{Line, MOST_BRANCHINGS, TreeKind};

/// What the lines so far come to: how many branchings there are, and the least value of the leaves.
#[derive(Clone, Copy)]
pub(crate) struct Tally {
    pub(crate) branched: u32,
    pub(crate) bound: Bound,
}

/// Whether a number in a file is that of a task.
fn is_number(node: &Decisions, number: u16) -> bool
    ensures number { result ≡ is_number node.now.inst number }
    ensures valid { Valid node.now.inst }
{
    let count = node.instance().task_count();
    0 < number && number <= count
}

/// Whether both are numbers of tasks.
fn are_both_numbers(node: &Decisions, one: u16, other: u16) -> bool
    ensures numbers { result ≡ (is_number node.now.inst one && is_number node.now.inst other) }
    ensures valid { Valid node.now.inst }
{
    let first = is_number(node, one);
    first && is_number(node, other)
}

/// Whether all are numbers of tasks.
fn are_numbers(node: &Decisions, numbers: &[u16]) -> bool
    ensures { result ≡ list_all (is_number node.now.inst) numbers.now }
{
    numbers.iter().all(|number| is_number(node, *number))
}

/// The end that a chain of tasks shows.
fn chain_bound(node: &Decisions, numbers: &[u16]) -> Result<Bound, TreeKind>
    requires few { length numbers.now ≤ most_tasks }
    ensures { Shows node.now.inst node.now.decisions Chain numbers.now result }
{
    if !are_numbers(node, numbers) {
        return Err(TreeKind::UnknownTask);
    }
    match chain_end(node, numbers) {
        Some(end) => Ok(Bound::Least(end)),
        None => Err(TreeKind::NotForced),
    }
}

/// A ring of tasks shows that no schedule agrees with the node.
fn ring_bound(node: &Decisions, numbers: &[u16]) -> Result<Bound, TreeKind>
    requires some { 2 ≤ length numbers.now }
    requires few { length numbers.now ≤ most_tasks }
    ensures { Shows node.now.inst node.now.decisions Ring numbers.now result }
{
    if !are_numbers(node, numbers) {
        Err(TreeKind::UnknownTask)
    } else if is_ring(node, numbers) {
        Ok(Bound::Never)
    } else {
        Err(TreeKind::NotCycle)
    }
}

/// The end that packed tasks show.
fn clash_bound(
    node: &Decisions,
    crew: &Crew,
    begun: &Option<EarlyStarts>,
    numbers: &[u16],
) -> Result<Bound, TreeKind>
    requires crew { IsCrewOf crew.now node.now.inst node.now.decisions }
    requires begun { HasEarly node.now.inst.turn node.now.inst node.now.decisions begun.now }
    requires few { length numbers.now ≤ most_tasks }
    ensures { Shows node.now.inst node.now.decisions Clash numbers.now result }
{
    if !are_numbers(node, numbers) {
        return Err(TreeKind::UnknownTask);
    }
    match packed_end(node, crew, begun, numbers) {
        Some(end) => Ok(Bound::Least(end)),
        None => Err(TreeKind::NotClash),
    }
}

/// Whether the newest decision puts a task on a crane that doesn't reach it.
fn is_out_of_reach(node: &Decisions) -> bool
    requires were_open { WereOpen node.now.inst node.now.decisions }
    ensures { result ≡ is_out_of_reach node.now.inst node.now.decisions }
{
    match node.newest() {
        Some(Decision::Assign(task, crane)) => !in_reach(node.instance(), task, crane),
        _ => false,
    }
}

/// A decision out of reach shows that no schedule agrees with the node.
fn reach_bound(node: &Decisions) -> Result<Bound, TreeKind>
    requires were_open { WereOpen node.now.inst node.now.decisions }
    ensures { (numbers : List ℕ) → Shows node.now.inst node.now.decisions Reach numbers result }
{
    if is_out_of_reach(node) {
        Ok(Bound::Never)
    } else {
        Err(TreeKind::InReach)
    }
}

/// The end before which the work doesn't fit.
fn work_bound(node: &Decisions, crew: &Crew, end: Tick) -> Result<Bound, TreeKind>
    requires crew { IsCrewOf crew.now node.now.inst node.now.decisions }
    requires some { 1 ≤ end }
    requires digits { end < 10 ^ 15 }
    ensures { (numbers : List ℕ) → Shows node.now.inst node.now.decisions (Work end) numbers result }
{
    if is_work_over(node, crew, end) {
        Ok(Bound::Least(end))
    } else {
        Err(TreeKind::WorkShort)
    }
}

/// What a leaf's line shows.
fn leaf_bound(
    node: &Decisions,
    crew: &Crew,
    begun: &Option<EarlyStarts>,
    line: Line,
    numbers: &[u16],
) -> Result<Bound, TreeKind>
    requires crew { IsCrewOf crew.now node.now.inst node.now.decisions }
    requires begun { HasEarly node.now.inst.turn node.now.inst node.now.decisions begun.now }
    requires were_open { WereOpen node.now.inst node.now.decisions }
    requires in_range { IsLine line numbers.now }
    requires leaf { IsNoBranching line }
    ensures { Shows node.now.inst node.now.decisions line numbers.now result }
{
    match line {
        Line::Chain => chain_bound(node, numbers),
        Line::Ring => ring_bound(node, numbers),
        Line::Reach => reach_bound(node),
        Line::Work(end) => work_bound(node, crew, end),
        Line::Clash => clash_bound(node, crew, begun, numbers),
        _ => Err(TreeKind::Place),
    }
}

impl Tally {
    /// One branching more.
    fn with_branching(self) -> Result<Tally, TreeKind>
        ensures { result ≡ with_branching self }
    {
        if self.branched < MOST_BRANCHINGS {
            Ok(Tally {
                branched: self.branched + 1,
                ..self
            })
        } else {
            Err(TreeKind::Branchings)
        }
    }
}

/// Branching on the crane of a task.
fn on_task(descent: &mut Descent, tally: Tally, number: u16) -> Result<Tally, TreeKind>
    requires live { descent.old.live ≡ true }
    ensures inst { descent.new.inst ≡ descent.old.inst }
    ensures judged { (numbers : List ℕ)
        → IsJudged descent.old tally (Assign number) numbers descent.new result }
{
    let node = descent.node();
    if !is_number(node, number) {
        return Err(TreeKind::UnknownTask);
    }
    let task = number - 1;
    if node.crane_of(task).is_some() {
        return Err(TreeKind::Decided);
    }
    let now = tally.with_branching()?;
    descent.on_task(task);
    Ok(now)
}

/// Whether the order of two tasks may be branched on: the lower is first, and they are apart or, where
/// cranes go as they like, can't run at the same time on their cranes.
fn may_order(node: &Decisions, first: u16, second: u16) -> bool
    requires valid { Valid node.now.inst }
    requires first { first < length node.now.inst.tasks }
    requires second { second < length node.now.inst.tasks }
    ensures { result ≡ may_order node.now.inst.turn node.now.inst node.now.decisions first second }
{
    first < second && node.conflict(first, second)
}

/// The fault of a pair of which it may not.
fn no_order(turn: Turn) -> TreeKind
    ensures { result ≡ no_order turn }
{
    match turn {
        Turn::OneWay => TreeKind::NotApart,
        Turn::Free => TreeKind::NotConflict,
    }
}

/// Branching on the order of two tasks.
fn on_pair(descent: &mut Descent, tally: Tally, one: u16, other: u16) -> Result<Tally, TreeKind>
    requires live { descent.old.live ≡ true }
    ensures inst { descent.new.inst ≡ descent.old.inst }
    ensures judged { (numbers : List ℕ)
        → IsJudged descent.old tally (Order one other) numbers descent.new result }
{
    let node = descent.node();
    if !are_both_numbers(node, one, other) {
        return Err(TreeKind::UnknownTask);
    }
    let (first, second) = (one - 1, other - 1);
    if !may_order(node, first, second) {
        return Err(no_order(node.instance().turn()));
    }
    if node.settled(first, second) {
        return Err(TreeKind::Decided);
    }
    let now = tally.with_branching()?;
    descent.on_pair(first, second);
    Ok(now)
}

/// A leaf.
fn on_leaf(
    descent: &mut Descent,
    tally: Tally,
    line: Line,
    numbers: &[u16],
) -> Result<Tally, TreeKind>
    requires live { descent.old.live ≡ true }
    requires in_range { IsLine line numbers.now }
    requires leaf { IsNoBranching line }
    ensures inst { descent.new.inst ≡ descent.old.inst }
    ensures judged { IsJudged descent.old tally line numbers.now descent.new result }
{
    match leaf_bound(
        descent.node(),
        descent.crew(),
        descent.begun(),
        line,
        numbers,
    ) {
        Ok(value) => {
            descent.leave();
            Ok(Tally {
                bound: tally.bound.min(value),
                ..tally
            })
        }
        Err(fault) => Err(fault),
    }
}

/// A line of a part: what the lines come to with it, or its fault.
pub(crate) fn on_line(
    descent: &mut Descent,
    tally: Tally,
    line: Line,
    numbers: &[u16],
) -> Result<Tally, TreeKind>
    requires live { descent.old.live ≡ true }
    requires in_range { IsLine line numbers.now }
    ensures inst { descent.new.inst ≡ descent.old.inst }
    ensures judged { IsJudged descent.old tally line numbers.now descent.new result }
{
    match line {
        Line::Assign(number) => on_task(descent, tally, number),
        Line::Order(one, other) => on_pair(descent, tally, one, other),
        _ => on_leaf(descent, tally, line, numbers),
    }
}
