//! Tasks whose order is still open and which overlap in the earliest starts.

ghost use Rattle.std.specs.Prelude.{◌≡◌, ◌↔◌, ℕ, ◌*◌, ◌<◌, ◌≤◌, ◌⊎◌, None, Some, IfSome, IsTrue, MatchOption, length};
ghost use Rattle.qc_model.specs.declared.limits.TheConstants.{MOST_DISTANCE, MOST_START};
ghost use Rattle.qc_dist.specs.Node.{IsOpen};
ghost use Rattle.qc_model.specs.Clear.{AreClear};
ghost use Rattle.qc_model.specs.declared.decision.Decision.TheVariants.{Order};
ghost use Rattle.qc_starts.specs.Overlaps.{Overlaps};
ghost use Rattle.qc_starts.specs.Overlapping.{AreFar, HasOverlap, IsFound, IsWide, OverlapsLater};
ghost use Rattle.qc_starts.specs.Values.{start_at};

use crate::network::Network;
use crate::noted::Noted;
use crate::tails::Tails;
use qc_dist::{Decisions, separation};
use qc_model::{Instance, MOST_CRANES, Pair, bays_up, travel_over};
use qc_num::{Bound, Tick};

/// By how many ticks any two tasks are clear of each other at the most: the travel along the ship, and over
/// a gap for each crane.
fn widest(inst: &Instance) -> Tick
    ensures wide { IsWide inst.now result }
    ensures bound { result ≤ MOST_DISTANCE }
{
    let gaps = bays_up(0, inst.gap()) * Tick::from(MOST_CRANES);
    travel_over(inst, bays_up(0, inst.bays()) + gaps)
}

/// Whether one of two tasks ends so many ticks before the other starts that they are clear of each other,
/// whichever cranes have them.
fn are_far(network: &Network, values: &Noted, wide: Tick, i: u16, j: u16) -> bool
    requires count { length values.now.cells ≡ 2 * length network.now.inst.tasks }
    requires soon { (j : ℕ) → j < length network.now.inst.tasks
        → start_at values.now.cells j ≤ MOST_START }
    requires wide { IsWide network.now.inst wide }
    requires bound { wide ≤ MOST_DISTANCE }
    requires first { i < length network.now.inst.tasks }
    requires second { j < length network.now.inst.tasks }
    ensures { IsTrue result → AreFar network.now.inst values.now.cells i j }
{
    let inst = network.instance();
    let (one, other) = (values.start(i), values.start(j));
    one + inst.task(i).ticks + wide <= other || other + inst.task(j).ticks + wide <= one
}

/// Whether one of two tasks ends so long before the other starts that their cranes can give way.
fn are_clear(network: &Network, values: &Noted, i: u16, v: u16, j: u16, w: u16) -> bool
    requires count { length values.now.cells ≡ 2 * length network.now.inst.tasks }
    requires soon { (j : ℕ) → j < length network.now.inst.tasks
        → start_at values.now.cells j ≤ MOST_START }
    requires first_task { i < length network.now.inst.tasks }
    requires first_crane { v < length network.now.inst.cranes }
    requires second_task { j < length network.now.inst.tasks }
    requires second_crane { w < length network.now.inst.cranes }
    ensures { IsTrue result ↔ AreClear network.now.inst values.now.cells i v j w }
{
    let inst = network.instance();
    let ticks = separation(inst, i, v, j, w);
    let (one, other) = (values.start(i), values.start(j));
    one + inst.task(i).ticks + ticks <= other || other + inst.task(j).ticks + ticks <= one
}

/// Whether the order of two tasks is still open: they conflict, and neither is forced after the other.
fn is_open(decisions: &Decisions, i: u16, j: u16) -> bool
    requires first { i < length decisions.now.inst.tasks }
    requires second { j < length decisions.now.inst.tasks }
    ensures { IsTrue result ↔ IsOpen decisions.now.inst decisions.now.decisions (Order i j) }
{
    decisions.conflict(i, j) && !decisions.settled(i, j)
}

/// Whether two tasks that have cranes, and whose order is still open, aren't clear of each other.
fn overlaps(network: &Network, values: &Noted, wide: Tick, i: u16, j: u16) -> bool
    requires count { length values.now.cells ≡ 2 * length network.now.inst.tasks }
    requires soon { (j : ℕ) → j < length network.now.inst.tasks
        → start_at values.now.cells j ≤ MOST_START }
    requires wide { IsWide network.now.inst wide }
    requires bound { wide ≤ MOST_DISTANCE }
    requires first { i < length network.now.inst.tasks }
    requires second { j < length network.now.inst.tasks }
    ensures { IsTrue result
        ↔ Overlaps network.now.inst network.now.decisions values.now.cells i j }
{
    let decisions = network.decisions();
    if are_far(network, values, wide, i, j) {
        return false;
    }
    match (decisions.crane_of(i), decisions.crane_of(j)) {
        (Some(v), Some(w)) => {
            !are_clear(network, values, i, v, j, w) && is_open(decisions, i, j)
        }
        _ => false,
    }
}

/// Whether a task overlaps with a later one.
fn overlaps_later(network: &Network, values: &Noted, wide: Tick, i: u16) -> bool
    requires count { length values.now.cells ≡ 2 * length network.now.inst.tasks }
    requires soon { (j : ℕ) → j < length network.now.inst.tasks
        → start_at values.now.cells j ≤ MOST_START }
    requires wide { IsWide network.now.inst wide }
    requires bound { wide ≤ MOST_DISTANCE }
    requires first { i < length network.now.inst.tasks }
    ensures { IsTrue result
        ↔ OverlapsLater network.now.inst network.now.decisions values.now.cells i }
{
    let count = network.task_count();
    for j in i + 1..count {
        if overlaps(network, values, wide, i, j) {
            return true;
        }
    }
    false
}

/// Whether any two tasks overlap.
pub(crate) fn has_overlap(network: &Network, values: &Noted) -> bool
    requires count { length values.now.cells ≡ 2 * length network.now.inst.tasks }
    requires soon { (j : ℕ) → j < length network.now.inst.tasks
        → start_at values.now.cells j ≤ MOST_START }
    ensures { IsTrue result
        ↔ HasOverlap network.now.inst network.now.decisions values.now.cells }
{
    let wide = widest(network.instance());
    for i in 0..network.task_count() {
        if overlaps_later(network, values, wide, i) {
            return true;
        }
    }
    false
}

/// Two tasks that overlap. The least is branched on first.
#[derive(Clone, Copy, PartialEq, Eq, PartialOrd, Ord)]
struct Overlap {
    /// How many of the two orders may leave an end before the best one.
    early: u8,
    /// When both have started.
    from: Tick,
    pair: Pair,
}

/// How many of two orders may leave an end before the best one.
fn early_orders(network: &Network, values: &Noted, tails: &Tails, pair: Pair, best: Bound) -> u8
    requires count { length values.now.cells ≡ 2 * length network.now.inst.tasks }
    requires first { pair.first < length network.now.inst.tasks }
    requires second { pair.second < length network.now.inst.tasks }
{
    let decisions = network.decisions();
    let (Some(v), Some(w)) = (
        decisions.crane_of(pair.first),
        decisions.crane_of(pair.second),
    ) else {
        return 2;
    };
    let inst = network.instance();
    let ticks = separation(inst, pair.first, v, pair.second, w);
    let one = inst.task(pair.first).ticks.saturating_add(ticks);
    let other = inst.task(pair.second).ticks.saturating_add(ticks);
    let behind_one = values.start(pair.first).saturating_add(one);
    let behind_other = values.start(pair.second).saturating_add(other);
    u8::from(!tails.is_late(behind_one, pair.second, pair.first, best))
        + u8::from(!tails.is_late(behind_other, pair.first, pair.second, best))
}

/// Two tasks that overlap, as they are ranked.
fn ranked(network: &Network, values: &Noted, tails: &Tails, pair: Pair, best: Bound) -> Overlap
    requires count { length values.now.cells ≡ 2 * length network.now.inst.tasks }
    requires first { pair.first < length network.now.inst.tasks }
    requires second { pair.second < length network.now.inst.tasks }
    ensures { result.pair ≡ pair }
{
    let early = early_orders(network, values, tails, pair, best);
    let from = values.start(pair.first).max(values.start(pair.second));
    Overlap { early, from, pair }
}

/// The lesser of two pairs, the first of them where they are the same.
fn sooner(before: Option<Overlap>, this: Overlap) -> Overlap
    ensures { (result ≡ this) ⊎ (before ≡ Some result) }
{
    match before {
        Some(other) => { if other <= this { other } else { this } }
        None => this,
    }
}

/// The least of the pairs of a task and a later one that overlap, and of one that was found before them.
fn first_later(
    network: &Network,
    values: &Noted,
    tails: &Tails,
    wide: Tick,
    i: u16,
    best: Bound,
    before: Option<Overlap>,
) -> Option<Overlap>
    requires count { length values.now.cells ≡ 2 * length network.now.inst.tasks }
    requires soon { (j : ℕ) → j < length network.now.inst.tasks
        → start_at values.now.cells j ≤ MOST_START }
    requires wide { IsWide network.now.inst wide }
    requires bound { wide ≤ MOST_DISTANCE }
    requires first { i < length network.now.inst.tasks }
    requires before { IfSome before (λ found. IsFound network.now.inst network.now.decisions
        values.now.cells found.pair.first found.pair.second) }
    ensures is { IfSome result (λ found. IsFound network.now.inst network.now.decisions
        values.now.cells found.pair.first found.pair.second) }
    ensures none { result ≡ None → (before ≡ None)
        × (¬ OverlapsLater network.now.inst network.now.decisions values.now.cells i) }
{
    let count = network.task_count();
    let mut first = before;
    for j in i + 1..count {
        if overlaps(network, values, wide, i, j) {
            let pair = Pair {
                first: i,
                second: j,
            };
            let overlap = ranked(network, values, tails, pair, best);
            first = Some(sooner(first, overlap));
        }
    }
    first
}

/// The least of the pairs that overlap; `None` exactly where none does.
pub(crate) fn first_overlap(network: &Network, values: &Noted, best: Bound) -> Option<Pair>
    requires count { length values.now.cells ≡ 2 * length network.now.inst.tasks }
    requires soon { (j : ℕ) → j < length network.now.inst.tasks
        → start_at values.now.cells j ≤ MOST_START }
    ensures { MatchOption result
        (¬ HasOverlap network.now.inst network.now.decisions values.now.cells)
        (λ pair. IsFound network.now.inst network.now.decisions values.now.cells
        pair.first pair.second) }
{
    let tails = Tails::of(network, values);
    let wide = widest(network.instance());
    let mut first = None;
    for i in 0..network.task_count() {
        first = first_later(network, values, &tails, wide, i, best, first);
    }
    match first {
        Some(found) => Some(found.pair),
        None => None,
    }
}
