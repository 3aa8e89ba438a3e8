//! Tasks passed one after the other by their planned starts, each as soon as those that lead it let it.

ghost use Rattle.std.specs.Prelude.{◌≡◌, ℕ, ◌+◌, ◌<◌, ◌≤◌, ◌↔◌, IfSome, IsTrue, true, length};
ghost use Rattle.qc_dispatch.specs.Marks.{AreMarks};
ghost use Rattle.qc_model.specs.Numbers.{most_distance, most_tasks};
ghost use Rattle.qc_model.specs.Rules.{Feasible, start_of};
ghost use Rattle.qc_rest.specs.Passed.{LetsBy, IsStep, most_base, most_first};

use qc_dispatch::{cell, gap};
use qc_model::{Instance, Slot};
use qc_num::Tick;

/// What is known of tasks while they are passed.
#[derive(Drop)]
pub(crate) struct Pass {
    /// Which are still to be passed.
    pub(crate) left: Vec<bool>,
    /// When each starts; one that is still to be passed no sooner than then.
    pub(crate) starts: Vec<Tick>,
    /// When each ends, where that counts and is known.
    pub(crate) ends: Vec<Option<Tick>>,
}

ghost use Rattle.qc_rest.specs.Passing.{ArePassed, EndBy, HasRoom, IsBegin, IsSoonest, StartBy, is_open};

/// Whether a task is to be passed, and starts sooner by the plan than the one that was found, if any was.
fn is_sooner(slots: &[Slot], left: &[bool], found: Option<u16>, j: u16) -> bool
    requires slots { length slots.now ≡ length left.now }
    requires inside { j < length left.now }
    requires found { IfSome found (λ i. i < length left.now) }
    ensures { IsTrue result ↔ ((is_open left.now j ≡ true) × IfSome found (λ i. start_of slots.now j < start_of slots.now i)) }
{
    if !left[j as usize] {
        return false;
    }
    match found {
        Some(found) => slots[j as usize].start < slots[found as usize].start,
        None => true,
    }
}

/// Of the tasks that are to be passed the first by the plan; `None` where there is none.
fn soonest(slots: &[Slot], left: &[bool]) -> Option<u16>
    requires slots { length slots.now ≡ length left.now }
    requires few { length left.now ≤ most_tasks }
    ensures { IsSoonest slots.now left.now (length left.now) result }
{
    let mut found: Option<u16> = None;
    for j in 0..left.len() as u16 {
        if is_sooner(slots, left, found, j) {
            found = Some(j);
        }
    }
    found
}

/// From when on a task lets another start: from its end, by the gap, if it leads it and has an end; else from 0 on.
fn let_by(
    inst: &Instance,
    slots: &[Slot],
    marks: &[bool],
    ends: &[Option<Tick>],
    i: u16,
    j: u16,
) -> Tick
    requires plan { Feasible inst.now slots.now }
    requires marks { AreMarks inst.now slots.now marks.now }
    requires ends { length ends.now ≡ length inst.now.tasks }
    requires first { i < length inst.now.tasks }
    requires second { j < length inst.now.tasks }
    requires few { length inst.now.tasks ≤ most_tasks }
    requires early { EndBy ends.now most_base }
    ensures moment { (moment : ℕ) → (result ≤ moment) ↔ LetsBy inst.now slots.now ends.now i j moment }
    ensures soon { (base : ℕ) → EndBy ends.now base → result ≤ base + most_distance }
{
    if !marks[cell(i, j)] {
        return 0;
    }
    match ends[i as usize] {
        Some(end) => end + gap(inst, slots, i, j),
        None => 0,
    }
}

/// The first moment, from one on, at which those that lead a task let it start.
fn due(
    inst: &Instance,
    slots: &[Slot],
    marks: &[bool],
    ends: &[Option<Tick>],
    first: Tick,
    j: u16,
) -> Tick
    requires plan { Feasible inst.now slots.now }
    requires marks { AreMarks inst.now slots.now marks.now }
    requires ends { length ends.now ≡ length inst.now.tasks }
    requires task { j < length inst.now.tasks }
    requires early { EndBy ends.now most_base }
    ensures start { IsBegin inst.now slots.now first ends.now j result }
    ensures soon { (base : ℕ) → first ≤ base → EndBy ends.now base → result ≤ base + most_distance }
{
    let mut due = first;
    for i in 0..inst.task_count() {
        due = due.max(let_by(inst, slots, marks, ends, i, j));
    }
    due
}

impl Pass {
    /// Passes a task.
    fn step(&mut self, inst: &Instance, slots: &[Slot], marks: &[bool], j: u16)
        requires plan { Feasible inst.now slots.now }
        requires marks { AreMarks inst.now slots.now marks.now }
        requires room { HasRoom inst.now self.old }
        requires task { j < length inst.now.tasks }
        requires starts { StartBy self.old.starts.items most_base }
        requires ends { EndBy self.old.ends.items most_base }
        ensures { IsStep inst.now slots.now self.old j self.new }
    {
        let first = self.starts[j as usize];
        let start = due(inst, slots, marks, self.ends.as_slice(), first, j);
        self.starts[j as usize] = start;
        self.ends[j as usize] = Some(start + inst.task(j).ticks);
        self.left[j as usize] = false;
    }

    /// Passes all tasks that are to be passed.
    pub(crate) fn run(&mut self, inst: &Instance, slots: &[Slot], marks: &[bool])
        requires plan { Feasible inst.now slots.now }
        requires marks { AreMarks inst.now slots.now marks.now }
        requires few { length inst.now.tasks ≤ most_tasks }
        requires room { HasRoom inst.now self.old }
        requires starts { StartBy self.old.starts.items most_first }
        requires ends { EndBy self.old.ends.items most_first }
        ensures { ArePassed inst.now slots.now self.old self.new }
    {
        while let Some(j) = soonest(slots, self.left.as_slice()) {
            self.step(inst, slots, marks, j);
        }
    }
}
