//! A plan as it is worked in a run, and what the run tells of its cranes: when one is through, and for how long it waits
//! at its tasks.

ghost use Rattle.std.specs.Prelude.{◌≡◌, ◌<◌, ◌≤◌, length};
ghost use Rattle.qc_model.specs.Instance.{bay_of};
ghost use Rattle.qc_model.specs.Ticks.{arrival};
ghost use Rattle.qc_odds.specs.Course.{end_in};
ghost use Rattle.qc_odds.specs.Moments.{most_end, most_held, most_moment};
ghost use Rattle.qc_odds.specs.Runs.{crane_end, end_on, held, held_at, is_ahead_of, is_on, there, there_from};

use qc_model::{Instance, Slot, bays_between, travel_over};
use qc_num::Tick;
use std::marker::Model;

/// A plan as it is worked in a run: how long each task takes, and when it starts.
#[derive(Drop)]
pub(crate) struct Run<'a> {
    pub(crate) inst: &'a Instance,
    pub(crate) slots: &'a [Slot],
    /// Which task leads which.
    pub(crate) marks: &'a [bool],
    pub(crate) lengths: &'a [Tick],
    pub(crate) starts: &'a [Tick],
}

impl<'a> Model for Run<'a> {
    ghost use Rattle.qc_odds.specs.Worked.{IsWorked, RunView, run_of};

    ghost Value = { RunView };

    ghost view = { run_of };

    ghost invariant = { IsWorked };
}

/// Whether the plan gives a task to a crane.
fn is_on(slots: &[Slot], crane: u16, j: u16) -> bool
    requires { j < length slots.now }
    ensures { result ≡ is_on slots.now crane j }
{
    slots[j as usize].crane == crane
}

/// Whether by the plan one crane does the first task and later the second.
fn is_ahead_of(slots: &[Slot], i: u16, j: u16) -> bool
    requires first { i < length slots.now }
    requires second { j < length slots.now }
    ensures { result ≡ is_ahead_of slots.now i j }
{
    let (one, other) = (slots[i as usize], slots[j as usize]);
    one.crane == other.crane && one.start < other.start
}

/// When a crane can first be at a task, whatever stands between.
fn arrival(inst: &Instance, crane: u16, j: u16) -> Tick
    requires task { j < length inst.now.tasks }
    requires crane { crane < length inst.now.cranes }
    ensures ticks { result ≡ arrival inst.now crane (bay_of inst.now j) }
{
    let post = inst.post(crane);
    post.ready + travel_over(inst, bays_between(post.bay, inst.task(j).bay))
}

impl Run<'_> {
    /// When a task ends.
    pub(crate) fn end_of(&self, j: u16) -> Tick
        requires { j < length self.now.inst.tasks }
        ensures ticks { result ≡ end_in self.now.lengths self.now.starts j }
        ensures bound { result ≤ most_end }
    {
        self.starts[j as usize] + self.lengths[j as usize]
    }

    /// When the crane of a task has come there from another, which it does before; 0 where it does not.
    fn there_from(&self, j: u16, i: u16) -> Tick
        requires task { j < length self.now.inst.tasks }
        requires other { i < length self.now.inst.tasks }
        ensures { result ≡ there_from self.now.inst self.now.plan self.now.lengths self.now.starts j i }
    {
        if !is_ahead_of(self.slots, i, j) {
            return 0;
        }
        let way = travel_over(
            self.inst,
            bays_between(self.inst.task(i).bay, self.inst.task(j).bay),
        );
        self.end_of(i) + way
    }

    /// When the crane of a task is there, whatever else the task waits for.
    fn there(&self, j: u16) -> Tick
        requires { j < length self.now.inst.tasks }
        ensures { result ≡ there self.now.inst self.now.plan self.now.lengths self.now.starts j }
    {
        let mut tick = arrival(self.inst, self.slots[j as usize].crane, j);
        for i in 0..self.inst.task_count() {
            tick = tick.max(self.there_from(j, i));
        }
        tick
    }

    /// For how long a crane stands at a task and waits; 0 where the task is another crane's.
    fn held_at(&self, crane: u16, j: u16) -> Tick
        requires { j < length self.now.inst.tasks }
        ensures ticks { result ≡ held_at self.now.inst self.now.plan self.now.lengths self.now.starts crane j }
        ensures bound { result ≤ most_moment }
    {
        if is_on(self.slots, crane, j) {
            self.starts[j as usize].saturating_sub(self.there(j))
        } else {
            0
        }
    }

    /// For how long a crane stands at its tasks and waits.
    pub(crate) fn held(&self, crane: u16) -> Tick
        ensures ticks { result ≡ held self.now.inst self.now.plan self.now.lengths self.now.starts crane }
        ensures bound { result ≤ most_held }
    {
        let mut ticks: Tick = 0;
        for j in 0..self.inst.task_count() {
            ticks += self.held_at(crane, j);
        }
        ticks
    }

    /// When a task of a crane ends; 0 where the task is another crane's.
    fn end_on(&self, crane: u16, j: u16) -> Tick
        requires { j < length self.now.inst.tasks }
        ensures ticks { result ≡ end_on self.now.plan self.now.lengths self.now.starts crane j }
        ensures bound { result ≤ most_end }
    {
        if is_on(self.slots, crane, j) {
            self.end_of(j)
        } else {
            0
        }
    }

    /// When a crane is through with its tasks; 0 where it has none.
    pub(crate) fn crane_end(&self, crane: u16) -> Tick
        ensures ticks { result ≡ crane_end self.now.inst self.now.plan self.now.lengths self.now.starts crane }
        ensures bound { result ≤ most_end }
    {
        let mut last: Tick = 0;
        for j in 0..self.inst.task_count() {
            last = last.max(self.end_on(crane, j));
        }
        last
    }
}
