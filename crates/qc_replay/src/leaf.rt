//! What leaves show at a node.
ghost use Rattle.std.specs.Prelude.{◌≡◌, ◌+◌, ◌*◌, ◌<◌, ◌≤◌, ◌++◌, ◌^◌, ℕ, List, None, All, IfSome, MatchOption, length, option_map, take};
ghost use Rattle.qc_close.specs.Crews.{IsCrewOf};
ghost use Rattle.qc_close.specs.Model.{most_distance, most_tasks, most_work, chain_end, chain_ticks, is_ring, packed_end, work_over};
ghost use Rattle.qc_replay.specs.Earliest.{HasEarly};
ghost use Rattle.qc_replay.specs.Part.{IsNumber};
ghost use Rattle.qc_replay.specs.Walk.{from_file};

use crate::earliest::{EarlyStarts, least_begin};
use qc_close::Crew;
use qc_dist::Decisions;
use qc_model::MOST_TASKS;
use qc_num::Tick;

/// Whether the work of a node doesn't fit before an end.
pub(crate) fn is_work_over(node: &Decisions, crew: &Crew, end: Tick) -> bool
    requires crew { IsCrewOf crew.now node.now.inst node.now.decisions }
    requires some { 1 ≤ end }
    requires digits { end < 10 ^ 15 }
    ensures { result ≡ work_over node.now.inst node.now.decisions end }
{
    crew.closed(end)
}

/// From a task along others, each forced after the one before it: the last of them, and the ticks by
/// which it must start after the first.
fn way_along(node: &Decisions, first: u16, numbers: &[u16]) -> Option<(u16, Tick)>
    requires first { first < length node.now.inst.tasks }
    requires numbers { All (IsNumber node.now.inst) numbers.now }
    requires few { length numbers.now ≤ most_tasks }
    ensures way { (behind : List ℕ) → MatchOption result
        (chain_ticks node.now.inst node.now.decisions first (from_file numbers.now ++ behind) ≡ None)
        (λ way. chain_ticks node.now.inst node.now.decisions first (from_file numbers.now ++ behind)
        ≡ option_map (λ rest. way.1 + rest) (chain_ticks node.now.inst node.now.decisions way.0 behind)) }
    ensures range { IfSome result (λ way. way.0 < length node.now.inst.tasks) }
    ensures bound { IfSome result
        (λ way. way.1 ≤ (most_work + most_distance) * length numbers.now) }
{
    let mut last = first;
    let mut ticks = 0;
    for number in numbers {
        let next = *number - 1;
        ticks += node.forced(last, next)?;
        last = next;
    }
    Some((last, ticks))
}

/// The end that a chain shows; `None` where a task of it isn't forced after the one before.
pub(crate) fn chain_end(node: &Decisions, numbers: &[u16]) -> Option<Tick>
    requires numbers { All (IsNumber node.now.inst) numbers.now }
    requires few { length numbers.now ≤ most_tasks }
    ensures { result ≡ chain_end node.now.inst node.now.decisions (from_file numbers.now) }
{
    let Some((number, rest)) = numbers.split_first() else {
        return Some(0);
    };
    let first = *number - 1;
    let (last, ticks) = way_along(node, first, rest)?;
    Some(node.lead(first) + ticks + node.instance().task(last).ticks)
}

/// Whether each task is forced after the one before it, and the first after the last.
pub(crate) fn is_ring(node: &Decisions, numbers: &[u16]) -> bool
    requires numbers { All (IsNumber node.now.inst) numbers.now }
    requires few { length numbers.now ≤ most_tasks }
    ensures { result ≡ is_ring node.now.inst node.now.decisions (from_file numbers.now) }
{
    let Some((number, rest)) = numbers.split_first() else {
        return false;
    };
    let first = *number - 1;
    match way_along(node, first, rest) {
        Some((last, _)) => node.forced(last, first).is_some(),
        None => false,
    }
}

/// The tasks of these numbers, counted from 0, from the front of the array on.
fn counted_from_0(numbers: &[u16]) -> [u16; MOST_TASKS as usize]
    requires few { length numbers.now ≤ most_tasks }
    ensures { take (length numbers.now) result ≡ from_file numbers.now }
{
    let mut tasks = [0; MOST_TASKS as usize];
    for (index, number) in numbers.iter().enumerate() {
        tasks[index] = number.saturating_sub(1);
    }
    tasks
}

/// The end that packed tasks show, which begin when the first of them can; `None` exactly where they
/// aren't packed, or the node has no least starts where those count.
pub(crate) fn packed_end(
    node: &Decisions,
    crew: &Crew,
    begun: &Option<EarlyStarts>,
    numbers: &[u16],
) -> Option<Tick>
    requires crew { IsCrewOf crew.now node.now.inst node.now.decisions }
    requires begun { HasEarly node.now.inst.turn node.now.inst node.now.decisions begun.now }
    requires numbers { All (IsNumber node.now.inst) numbers.now }
    requires few { length numbers.now ≤ most_tasks }
    ensures { result ≡ packed_end node.now.inst node.now.decisions (from_file numbers.now) }
{
    let tasks = counted_from_0(numbers);
    let listed = &tasks[..numbers.len()];
    let ticks = crew.pack(listed)?;
    let begin = least_begin(node, begun, listed)?;
    Some(begin + ticks)
}
