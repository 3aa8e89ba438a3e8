//! When a node ends at the soonest, as packed tasks show it.

ghost use Rattle.std.specs.Prelude.{◌≡◌, ◌<◌, ◌≤◌, All, IfSome, IsSome, length, map};
ghost use Rattle.qc_close.specs.Crews.{IsCrewOf};
ghost use Rattle.qc_close.specs.Model.{MOST_START, early, packed_end, least};
ghost use Rattle.qc_bounds.specs.Packed.{IsPackedFrom, IsSoon, early_at};

use crate::spread::spread;
use qc_close::Crew;
use qc_model::{Instance, Turn, bays_up};
use qc_num::{Tick, lesser};
use qc_starts::Starts;

/// From when a task can start: where cranes go one way when its crane can be at it, which is cheap to tell,
/// and where they go as they like its earliest start.
pub(crate) fn early(node: &Starts, task: u16) -> Tick
    requires known { IsSome (early node.now.inst node.now.decisions) }
    requires task { task < length node.now.inst.tasks }
    ensures tick { result ≡ early_at node.now.inst node.now.decisions task }
    ensures soon { IsSoon result }
{
    match node.instance().turn() {
        Turn::OneWay => node.lead(task),
        Turn::Free => node.start(task),
    }
}

/// From when the first of these tasks can start; 0 where there is none.
fn least_early(node: &Starts, tasks: &[u16]) -> Tick
    requires known { IsSome (early node.now.inst node.now.decisions) }
    requires tasks { All (λ j. j < length node.now.inst.tasks) tasks.now }
    ensures tick { result ≡ least (map (early_at node.now.inst node.now.decisions) tasks.now) }
    ensures soon { IsSoon result }
{
    let mut least: Option<Tick> = None;
    for task in tasks {
        least = Some(lesser(least, early(node, *task)));
    }
    least.unwrap_or(0)
}

/// The end that packed tasks show; `None` exactly where they aren't packed.
fn packed_end(node: &Starts, crew: &Crew, tasks: &[u16]) -> Option<Tick>
    requires known { IsSome (early node.now.inst node.now.decisions) }
    requires crew { IsCrewOf crew.now node.now.inst node.now.decisions }
    requires tasks { All (λ j. j < length node.now.inst.tasks) tasks.now }
    ensures end { result ≡ packed_end node.now.inst node.now.decisions tasks.now }
    ensures soon { IfSome result (λ end. end ≤ MOST_START) }
{
    let ticks = crew.pack(tasks)?;
    Some(least_early(node, tasks) + ticks)
}

/// The most ticks of travel between packed tasks.
pub(crate) fn most_travel(inst: &Instance) -> Tick {
    let gaps = bays_up(0, inst.gap()).saturating_mul(Tick::from(inst.crane_count()));
    let bays = bays_up(0, inst.bays()).saturating_add(gaps);
    inst.travel().saturating_mul(bays)
}

/// The latest end that a list of tasks may show which take so many ticks.
fn latest_end(node: &Starts, crew: &Crew, ticks: Tick, tasks: &[u16]) -> Tick
    requires known { IsSome (early node.now.inst node.now.decisions) }
    requires node { All (λ j. j < length node.now.inst.tasks) tasks.now }
    requires crew { All (λ j. j < length crew.now.inst.tasks) tasks.now }
{
    let travel = crew.instance().travel().saturating_mul(spread(crew, tasks));
    least_early(node, tasks)
        .saturating_add(ticks)
        .saturating_add(travel)
}

/// How many ticks tasks must take at the least to show an end, where the first of them can start at a tick
/// and there are so many ticks of travel between them at the most.
pub(crate) fn least_ticks(end: Tick, begins: Tick, travel: Tick) -> Tick {
    end.saturating_sub(begins.saturating_add(travel))
}

/// Judges tasks that take so many ticks: the end that they show, where it is this one or a later one.
pub(crate) fn judge(
    node: &Starts,
    crew: &Crew,
    ticks: Tick,
    end: Tick,
    tasks: &[u16],
) -> Option<Tick>
    requires known { IsSome (early node.now.inst node.now.decisions) }
    requires crew { IsCrewOf crew.now node.now.inst node.now.decisions }
    requires tasks { All (λ j. j < length node.now.inst.tasks) tasks.now }
    ensures { IfSome result (IsPackedFrom node.now.inst node.now.decisions end tasks.now) }
{
    if latest_end(node, crew, ticks, tasks) < end {
        return None;
    }
    let shown = packed_end(node, crew, tasks)?;
    if shown < end { None } else { Some(shown) }
}
