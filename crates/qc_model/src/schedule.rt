//! Schedules, and when they end.

ghost use Rattle.std.specs.Prelude.{◌≡◌, ◌<◌, ◌≤◌, length, map, All, IfOk, replicate, slice_set};
ghost use Rattle.qc_model.specs.Judge.{IsJudgeable};
ghost use Rattle.qc_model.specs.Numbers.{most_end};
ghost use Rattle.qc_model.specs.OneWay.{flipped};
ghost use Rattle.qc_model.specs.Rules.{ends, no_slot};

use crate::Instance;
use qc_num::{OutOfMemory, Tick};
use std::alloc::Global;
use std::marker::Model;

/// Which crane does a task, and from when on.
#[derive(Clone, Copy, PartialEq, Eq)]
pub struct Slot {
    /// The crane's number, from 0.
    pub crane: u16,
    /// The start in ticks.
    pub start: Tick,
}

/// A slot for each task, in the order of the tasks.
#[derive(Drop)]
pub struct Schedule {
    slots: Vec<Slot>,
}

impl Model for Schedule {
    ghost use Rattle.std.specs.Prelude.{List};
    ghost use Rattle.qc_model.specs.declared.schedule.Slot.{Slot};

    ghost Value = { List Slot };

    ghost view = { λ s. s.slots.items };
}

impl Schedule {
    /// A schedule of that many tasks, each on crane 0 from tick 0 on.
    pub fn new(alloc: Global, tasks: u16) -> Result<Schedule, OutOfMemory>
        ensures { IfOk result (λ s. s ≡ replicate tasks no_slot) }
    {
        let slot = Slot { crane: 0, start: 0 };
        let slots = vec![in alloc; slot; tasks as usize].map_err(OutOfMemory::from)?;
        Ok(Schedule { slots })
    }

    /// Gives a task its slot.
    pub fn set(&mut self, task: u16, slot: Slot)
        requires { task < length self.old }
        ensures { self.new ≡ slice_set self.old task slot }
    {
        self.slots[task as usize] = slot;
    }

    /// Numbers the cranes from the other end: of so many cranes, crane c becomes `cranes - 1 - c`.
    pub fn flip(&mut self, cranes: u16)
        requires { All (λ slot. slot.crane < cranes) self.old }
        ensures { self.new ≡ map (flipped cranes) self.old }
    {
        for task in 0..self.slots.len() {
            let slot = self.slots[task];
            self.slots[task] = Slot {
                crane: cranes - 1 - slot.crane,
                ..slot
            };
        }
    }

    /// The slots in task order.
    pub fn slots(&self) -> &[Slot]
        ensures { result.now ≡ self.now }
    {
        self.slots.as_slice()
    }
}

/// When the last task ends, in ticks; 0 where there is no task.
pub fn ends(inst: &Instance, sched: &Schedule) -> Tick
    requires { IsJudgeable inst.now sched.now }
    ensures ends { result ≡ ends inst.now sched.now }
    ensures bound { result ≤ most_end }
{
    let mut end = 0;
    for (task, slot) in inst.tasks().iter().zip(sched.slots()) {
        end = end.max(slot.start + task.ticks);
    }
    end
}
