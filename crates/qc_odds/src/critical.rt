//! Which tasks are critical.

ghost use Rattle.std.specs.Prelude.{◌≡◌, ◌<◌, ◌↔◌, IsTrue, length};
ghost use Rattle.qc_odds.specs.Critical.{AreMarked, HoldsUp, Matters};
ghost use Rattle.qc_odds.specs.Order.{AreTurns};

use crate::order::PlannedStart;
use crate::run::Run;
use qc_dispatch::{cell, gap};
use qc_num::Tick;

impl Run<'_> {
    /// Whether the next task is marked, and starts at the very end of one that leads it, by their gap.
    fn holds_up(&self, marked: &[bool], j: u16, next: u16) -> bool
        requires count { length marked.now ≡ length self.now.inst.tasks }
        requires task { j < length self.now.inst.tasks }
        requires behind { next < length self.now.inst.tasks }
        ensures { IsTrue result
            ↔ HoldsUp self.now.inst self.now.plan self.now.lengths self.now.starts marked.now j next }
    {
        let _tasks = self.inst.task_count();
        if !marked[next as usize] {
            return false;
        }
        if !self.marks[cell(j, next)] {
            return false;
        }
        self.end_of(j) + gap(self.inst, self.slots, j, next) == self.starts[next as usize]
    }

    /// Whether a task ends last, or holds up a marked one.
    fn matters(&self, last: Tick, marked: &[bool], j: u16) -> bool
        requires count { length marked.now ≡ length self.now.inst.tasks }
        requires task { j < length self.now.inst.tasks }
        ensures { IsTrue result
            ↔ Matters self.now.inst self.now.plan self.now.lengths self.now.starts last marked.now j }
    {
        if self.end_of(j) == last {
            return true;
        }
        for next in 0..self.inst.task_count() {
            if self.holds_up(marked, j, next) {
                return true;
            }
        }
        false
    }

    /// Marks the tasks that end last, and then, in the falling order of their turns, those that hold up a marked one.
    pub(crate) fn mark_critical(&self, turns: &[PlannedStart], last: Tick, marked: &mut [bool])
        requires turns { AreTurns self.now.inst self.now.plan turns.now }
        requires count { length marked.old ≡ length self.now.inst.tasks }
        ensures { AreMarked self.now.inst self.now.plan self.now.lengths self.now.starts last marked.new }
    {
        let mut left = self.inst.task_count();
        while left > 0 {
            left -= 1;
            let task = turns[left as usize].task;
            let is = self.matters(last, marked, task);
            marked[task as usize] = is;
        }
    }
}
