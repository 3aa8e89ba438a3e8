//! Distances, travel and reach of cranes over an instance.

ghost use Rattle.std.specs.Prelude.{◌≡◌, ◌+◌, ◌<◌, ◌≤◌, if◌then◌else◌, IfSome, None, Some, int_lt, length};
ghost use Rattle.qc_model.specs.declared.limits.TheConstants.{MOST_DISTANCE, MOST_READY, MOST_WORK};
ghost use Rattle.qc_model.specs.Instance.{bay_of, ticks_of};
ghost use Rattle.qc_model.specs.Nodes.{berth_wait, free, reaches, separation, upward_ticks};
ghost use Rattle.qc_model.specs.Ticks.{arrival, climb, task_distance, travel_between};

use qc_model::{Instance, bays_between, bays_up, travel_over};
use qc_num::Tick;

/// The ticks by which task `i` on crane `v` and task `j` on crane `w` keep clear of each other
/// (after Bierwirth and Meisel 2009), and 0 on one crane. Numbers are counted from 0.
pub fn distance(inst: &Instance, i: u16, v: u16, j: u16, w: u16) -> Tick
    requires first_task { i < length inst.now.tasks }
    requires first_crane { v < length inst.now.cranes }
    requires second_task { j < length inst.now.tasks }
    requires second_crane { w < length inst.now.cranes }
    ensures ticks { result ≡ task_distance inst.now i v j w }
    ensures bound { result ≤ MOST_DISTANCE }
{
    qc_model::distance(inst, v, inst.task(i).bay, w, inst.task(j).bay)
}

/// The ticks by which task `i` on crane `v` and task `j` on crane `w` are clear of each other, whichever
/// is first: the travel between them on one crane, and their distance on two.
pub fn separation(inst: &Instance, i: u16, v: u16, j: u16, w: u16) -> Tick
    requires first_task { i < length inst.now.tasks }
    requires first_crane { v < length inst.now.cranes }
    requires second_task { j < length inst.now.tasks }
    requires second_crane { w < length inst.now.cranes }
    ensures ticks { result ≡ separation inst.now i v j w }
    ensures bound { result ≤ MOST_DISTANCE }
{
    if v == w {
        travel_over(inst, bays_between(inst.task(i).bay, inst.task(j).bay))
    } else {
        distance(inst, i, v, j, w)
    }
}

/// The ticks from the start of task `i` to that of task `j`, which lies higher, on one crane that goes up; `None`
/// where it doesn't lie higher.
#[inline(always)]
fn climb(inst: &Instance, i: u16, j: u16) -> Option<Tick>
    requires first { i < length inst.now.tasks }
    requires second { j < length inst.now.tasks }
    ensures ticks { result ≡ (if int_lt (bay_of inst.now i) (bay_of inst.now j)
        then Some (climb inst.now i j) else None) }
    ensures bound { IfSome result (λ ticks. ticks ≤ MOST_WORK + MOST_DISTANCE) }
    ensures longer { IfSome result (λ ticks. ticks_of inst.now i < ticks) }
{
    let (first, second) = (inst.task(i), inst.task(j));
    if first.bay < second.bay {
        Some(first.ticks + travel_over(inst, bays_up(first.bay, second.bay)))
    } else {
        None
    }
}

/// What cranes ask for that go one way: by how many ticks task `j` on crane `w` must start after the start of
/// task `i` on crane `v`. One crane goes up from the one task to the other, and the lower of two cranes gives way.
/// `None` where they ask for nothing; and never as little as the ticks of task `i` alone.
#[inline(always)]
pub fn upward_ticks(inst: &Instance, i: u16, v: u16, j: u16, w: u16) -> Option<Tick>
    requires first_task { i < length inst.now.tasks }
    requires first_crane { v < length inst.now.cranes }
    requires second_task { j < length inst.now.tasks }
    requires second_crane { w < length inst.now.cranes }
    ensures ticks { result ≡ upward_ticks inst.now i v j w }
    ensures bound { IfSome result (λ ticks. ticks ≤ MOST_WORK + MOST_DISTANCE) }
    ensures longer { IfSome result (λ ticks. ticks_of inst.now i < ticks) }
{
    if v == w {
        return climb(inst, i, j);
    }
    if v < w {
        return None;
    }
    match distance(inst, i, v, j, w) {
        0 => None,
        clear => Some(inst.task(i).ticks + clear),
    }
}

/// When crane `k` can first be at task `j`, whatever stands between.
pub(crate) fn arrival(inst: &Instance, j: u16, k: u16) -> Tick
    requires task { j < length inst.now.tasks }
    requires crane { k < length inst.now.cranes }
    ensures ticks { result ≡ arrival inst.now k (bay_of inst.now j) }
    ensures bound { result ≤ MOST_READY + MOST_DISTANCE }
{
    let post = inst.post(k);
    let task = inst.task(j);
    post.ready + travel_over(inst, bays_between(post.bay, task.bay))
}

/// When task `j` is clear of the start bay of crane `v` for crane `k`; 0 where it always is.
fn berth_wait(inst: &Instance, j: u16, k: u16, v: u16) -> Tick
    requires task { j < length inst.now.tasks }
    requires crane { k < length inst.now.cranes }
    requires other { v < length inst.now.cranes }
    ensures ticks { result ≡ berth_wait inst.now j k v }
    ensures bound { result ≤ MOST_READY + MOST_DISTANCE }
{
    let post = inst.post(v);
    let clear = qc_model::distance(inst, v, post.bay, k, inst.task(j).bay);
    if clear == 0 { 0 } else { post.ready + clear }
}

/// When crane `k` can first begin task `j`: the task is held back no longer, the crane is ready and
/// comes from its start bay, and each other crane has left its own where that is too near.
pub fn head(inst: &Instance, j: u16, k: u16) -> Tick
    requires task { j < length inst.now.tasks }
    requires crane { k < length inst.now.cranes }
    ensures ticks { result ≡ free inst.now j k }
    ensures bound { result ≤ MOST_READY + MOST_DISTANCE }
{
    let mut tick = inst.task(j).release.max(arrival(inst, j, k));
    for v in 0..inst.crane_count() {
        tick = tick.max(berth_wait(inst, j, k, v));
    }
    tick
}

/// The ticks of task `i` and of the travel between it and task `j`.
pub fn span(inst: &Instance, i: u16, j: u16) -> Tick
    requires first { i < length inst.now.tasks }
    requires second { j < length inst.now.tasks }
    ensures ticks { result ≡ ticks_of inst.now i
        + travel_between inst.now (bay_of inst.now i) (bay_of inst.now j) }
    ensures bound { result ≤ MOST_WORK + MOST_DISTANCE }
{
    let first = inst.task(i);
    first.ticks + travel_over(inst, bays_between(first.bay, inst.task(j).bay))
}

/// Whether task `j` lies within the reach of crane `k`.
pub fn in_reach(inst: &Instance, j: u16, k: u16) -> bool
    requires task { j < length inst.now.tasks }
    requires crane { k < length inst.now.cranes }
    ensures { result ≡ reaches inst.now j k }
{
    let post = inst.post(k);
    let bay = inst.task(j).bay;
    post.from <= bay && bay <= post.to
}
