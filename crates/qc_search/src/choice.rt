//! Which branching comes next. It decides how much is shown within a budget, and nothing else: any
//! choice of an open branching is right.
ghost use Rattle.std.specs.Prelude.{◌≡◌, ◌<◌, ◌⊎◌, Some, MatchOption, length};
ghost use Rattle.qc_close.specs.Model.{OneWay, Free, HasStarts, IsComplete};
ghost use Rattle.qc_starts.specs.Seen.{AreAssigned};
ghost use Rattle.qc_search.specs.Walk.{IsOpenBranch, IsOpenTask};

use crate::branch::Branch;
use crate::given::apart_at;
use qc_model::{Pair, Turn};
use qc_num::{Bound, Tick};
use qc_starts::Starts;

/// The lowest unassigned task: the first from the bow of the ship, in both parts.
fn next_open(starts: &Starts) -> Option<u16>
    ensures { MatchOption result
        (AreAssigned starts.now.inst starts.now.decisions)
        (IsOpenTask starts.now.inst starts.now.decisions) }
{
    for task in 0..starts.instance().task_count() {
        if starts.crane_of(task).is_none() {
            return Some(task);
        }
    }
    None
}

/// An apart pair that isn't settled, and when both of its tasks have started in the earliest starts;
/// no tick is later where they don't overlap in these.
#[derive(Clone, Copy)]
struct Unsettled {
    pair: Pair,
    from: Tick,
}

/// When both of two tasks have started, where neither ends before the other starts.
fn overlap(starts: &Starts, pair: Pair) -> Tick
    requires starts { HasStarts starts.now.inst starts.now.decisions }
    requires first { pair.first < length starts.now.inst.tasks }
    requires second { pair.second < length starts.now.inst.tasks }
{
    let inst = starts.instance();
    let (one, other) = (starts.start(pair.first), starts.start(pair.second));
    if one + inst.task(pair.first).ticks <= other || other + inst.task(pair.second).ticks <= one {
        return Tick::MAX;
    }
    one.max(other)
}

/// Of two pairs that which overlaps sooner, the first of them where both do at the same tick.
fn sooner(before: Option<Unsettled>, this: Unsettled) -> Unsettled
    ensures { (result ≡ this) ⊎ (before ≡ Some result) }
{
    match before {
        Some(other) => { if other.from <= this.from { other } else { this } }
        None => this,
    }
}

/// The apart pair to settle: of those that overlap in the earliest starts the one that does so first,
/// else the first of all.
fn next_apart(starts: &Starts) -> Branch
    requires one_way { starts.now.inst.turn ≡ OneWay }
    requires starts { HasStarts starts.now.inst starts.now.decisions }
    requires assigned { AreAssigned starts.now.inst starts.now.decisions }
    requires undecided { ¬ IsComplete starts.now.inst starts.now.decisions }
    ensures { IsOpenBranch starts.now.inst starts.now.decisions result }
{
    let mut next: Option<Unsettled> = None;
    for number in 0..starts.instance().apart().len() {
        let pair = apart_at(starts, number);
        if !starts.settled(pair.first, pair.second) {
            let from = overlap(starts, pair);
            next = Some(sooner(next, Unsettled { pair, from }));
        }
    }
    match next {
        Some(found) => Branch::Pair(found.pair.first, found.pair.second),
        None => unreachable!(),
    }
}

/// The pair to settle where cranes go as they like: of those that overlap in the earliest starts.
fn next_overlap(starts: &Starts, best: Bound) -> Branch
    requires free { starts.now.inst.turn ≡ Free }
    requires starts { HasStarts starts.now.inst starts.now.decisions }
    requires assigned { AreAssigned starts.now.inst starts.now.decisions }
    requires undecided { ¬ IsComplete starts.now.inst starts.now.decisions }
    ensures { IsOpenBranch starts.now.inst starts.now.decisions result }
{
    match starts.overlap(best) {
        Some(pair) => Branch::Pair(pair.first, pair.second),
        None => unreachable!(),
    }
}

/// The pair to settle, where all tasks have a crane.
fn next_pair(starts: &Starts, best: Bound) -> Branch
    requires starts { HasStarts starts.now.inst starts.now.decisions }
    requires assigned { AreAssigned starts.now.inst starts.now.decisions }
    requires undecided { ¬ IsComplete starts.now.inst starts.now.decisions }
    ensures { IsOpenBranch starts.now.inst starts.now.decisions result }
{
    match starts.instance().turn() {
        Turn::OneWay => next_apart(starts),
        Turn::Free => next_overlap(starts, best),
    }
}

/// The lowest unassigned task; where there is none, a pair whose order is open. What it is best to branch on is told by
/// the end at which nodes are closed.
pub(crate) fn pick(starts: &Starts, best: Bound) -> Branch
    requires starts { HasStarts starts.now.inst starts.now.decisions }
    requires undecided { ¬ IsComplete starts.now.inst starts.now.decisions }
    ensures { IsOpenBranch starts.now.inst starts.now.decisions result }
{
    match next_open(starts) {
        Some(task) => Branch::Task(task),
        None => next_pair(starts, best),
    }
}
