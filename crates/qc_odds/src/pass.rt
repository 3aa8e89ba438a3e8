//! One pass over the tasks, which gives all starts.

ghost use Rattle.std.specs.Prelude.{◌≡◌, ℕ, ◌+◌, ◌<◌, ◌≤◌, length};
ghost use Rattle.qc_model.specs.Numbers.{most_distance, most_ready};
ghost use Rattle.qc_model.specs.Rules.{Feasible};
ghost use Rattle.qc_dispatch.specs.Marks.{AreMarks};
ghost use Rattle.qc_odds.specs.Course.{AreStarts, IsLastEnd, IsStart, end_in};
ghost use Rattle.qc_odds.specs.Lengths.{AreLengths, most_length};
ghost use Rattle.qc_odds.specs.Moments.{AreEarly, AreSoon, most_moment};
ghost use Rattle.qc_odds.specs.Order.{AreTurns};

use crate::order::PlannedStart;
use qc_dispatch::{cell, gap};
use qc_dist::head;
use qc_model::{Instance, Slot};
use qc_num::Tick;

/// The first moment at which a task may start, where those that lead it have the starts given.
fn due(
    inst: &Instance,
    slots: &[Slot],
    marks: &[bool],
    lengths: &[Tick],
    starts: &[Tick],
    j: u16,
) -> Tick
    requires plan { Feasible inst.now slots.now }
    requires marks { AreMarks inst.now slots.now marks.now }
    requires lengths { AreLengths inst.now lengths.now }
    requires count { length starts.now ≡ length inst.now.tasks }
    requires early { AreEarly starts.now most_moment }
    requires task { j < length inst.now.tasks }
    ensures start { IsStart inst.now slots.now (end_in lengths.now starts.now) j result }
    ensures soon { (moment : ℕ) → most_ready + most_distance ≤ moment → AreEarly starts.now moment
        → result ≤ moment + (most_length + most_distance) }
{
    let mut due = head(inst, j, slots[j as usize].crane);
    for i in 0..inst.task_count() {
        if marks[cell(i, j)] {
            let end = starts[i as usize] + lengths[i as usize];
            due = due.max(end + gap(inst, slots, i, j));
        }
    }
    due
}

/// No task has a start yet.
fn clear(starts: &mut [Tick])
    ensures none { AreEarly starts.new 0 }
    ensures count { length starts.new ≡ length starts.old }
{
    for start in starts.iter_mut() {
        *start = 0;
    }
}

/// The last end of all tasks, 0 without tasks.
fn last_end(lengths: &[Tick], starts: &[Tick]) -> Tick
    requires count { length lengths.now ≡ length starts.now }
    requires lengths { AreEarly lengths.now most_moment }
    requires starts { AreEarly starts.now most_moment }
    ensures { IsLastEnd lengths.now starts.now result }
{
    let mut last: Tick = 0;
    for (j, start) in starts.iter().enumerate() {
        last = last.max(*start + lengths[j]);
    }
    last
}

/// Fills in the starts of all tasks, one after the other in the order of their turns, and tells the last end.
pub(crate) fn work(
    inst: &Instance,
    slots: &[Slot],
    marks: &[bool],
    turns: &[PlannedStart],
    lengths: &[Tick],
    starts: &mut [Tick],
) -> Tick
    requires plan { Feasible inst.now slots.now }
    requires marks { AreMarks inst.now slots.now marks.now }
    requires turns { AreTurns inst.now slots.now turns.now }
    requires lengths { AreLengths inst.now lengths.now }
    requires count { length starts.old ≡ length inst.now.tasks }
    ensures starts { AreStarts inst.now slots.now lengths.now starts.new }
    ensures end { IsLastEnd lengths.now starts.new result }
    ensures soon { AreSoon starts.new }
{
    clear(starts);
    for at in 0..inst.task_count() {
        let task = turns[at as usize].task;
        let start = due(inst, slots, marks, lengths, starts, task);
        starts[task as usize] = start;
    }
    last_end(lengths, starts)
}
