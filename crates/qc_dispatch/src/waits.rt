//! What tasks wait for.

ghost use Rattle.std.specs.Prelude.{◌≡◌, ℕ, ◌*◌, ◌<◌, ◌≤◌, IfOk, IsTrue, None, length};
ghost use Rattle.qc_model.specs.declared.limits.TheConstants.{MOST_TASKS};
ghost use Rattle.qc_model.specs.Rules.{Feasible};
ghost use Rattle.qc_dispatch.specs.Course.{past_moments};
ghost use Rattle.qc_dispatch.specs.Marks.{AreMarks, mark};
ghost use Rattle.qc_dispatch.specs.Waits.{AreLetGo, AreWaits, open_below, wait_of};

use crate::order::{cell, gap};
use qc_dist::head;
use qc_model::{Instance, Slot};
use qc_num::{OutOfMemory, Tick};
use std::alloc::Global;

/// What a task waits for.
#[derive(Clone, Copy)]
pub(crate) struct Wait {
    /// How many of the tasks that lead it have no end.
    pub(crate) leaders: u16,
    /// From when on it may start for the others, and for its crane.
    pub(crate) due: Tick,
}

/// How many tasks lead a task.
fn leaders_of(inst: &Instance, marks: &[bool], j: u16) -> u16
    requires task { j < length inst.now.tasks }
    requires marks { length marks.now ≡ length inst.now.tasks * MOST_TASKS }
    ensures { result ≡ open_below (length inst.now.tasks) marks.now (λ i. None) j }
{
    let mut leaders = 0;
    for i in 0..inst.task_count() {
        if marks[cell(i, j)] {
            leaders += 1;
        }
    }
    leaders
}

/// What each task waits for.
#[derive(Drop)]
pub(crate) struct Waits {
    pub(crate) items: Vec<Wait>,
}

impl Waits {
    /// No task has an end.
    pub(crate) fn new(
        alloc: Global,
        inst: &Instance,
        slots: &[Slot],
        marks: &[bool],
    ) -> Result<Waits, OutOfMemory>
        requires plan { Feasible inst.now slots.now }
        requires marks { AreMarks inst.now slots.now marks.now }
        ensures { IfOk result (λ waits. AreWaits inst.now slots.now marks.now (λ i. None) waits.items.items) }
    {
        let mut items = Vec::new(alloc);
        for j in 0..inst.task_count() {
            items.push(Wait {
                leaders: leaders_of(inst, marks, j),
                due: head(inst, j, slots[j as usize].crane),
            })?;
        }
        Ok(Waits { items })
    }

    /// Lets those tasks go that a task led which ended at this moment.
    pub(crate) fn let_go(
        &mut self,
        inst: &Instance,
        slots: &[Slot],
        marks: &[bool],
        task: u16,
        moment: Tick,
    )
        requires plan { Feasible inst.now slots.now }
        requires inside { task < length inst.now.tasks }
        requires count { length self.old.items.items ≡ length inst.now.tasks }
        requires marks { length marks.now ≡ length inst.now.tasks * MOST_TASKS }
        requires early { moment < past_moments }
        requires some { (j : ℕ) → j < length inst.now.tasks → IsTrue (mark marks.now task j)
            → 1 ≤ (wait_of self.old.items.items j).leaders }
        ensures { AreLetGo inst.now slots.now marks.now task moment self.old.items.items self.new.items.items }
    {
        for j in 0..inst.task_count() {
            if marks[cell(task, j)] {
                let wait = self.items[j as usize];
                self.items[j as usize] = Wait {
                    leaders: wait.leaders - 1,
                    due: wait.due.max(moment + gap(inst, slots, task, j)),
                };
            }
        }
    }
}
