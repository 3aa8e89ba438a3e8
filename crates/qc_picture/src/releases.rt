//! Marks where a release time makes a crane wait.

ghost use Rattle.std.specs.Prelude.{◌<◌, length};
ghost use Rattle.qc_figures.specs.Views.{IsReady, view_of};

use crate::elements::Page;
use crate::paper::Paper;
use qc_model::{Instance, Schedule};
use qc_num::{Bay, Tick};

/// The ticks of travel from one bay to another.
fn travel(inst: &Instance, from: Bay, to: Bay) -> Tick {
    inst.travel().saturating_mul(Tick::from(from.abs_diff(to)))
}

/// When the crane of a task can be there, from its start bay and from those of its tasks that start before.
fn there(inst: &Instance, sched: &Schedule, number: usize) -> Option<Tick> {
    let slots = sched.slots();
    let (task, slot) = (inst.tasks().get(number)?, slots.get(number)?);
    let crane = inst.cranes().get(slot.crane as usize)?;
    let mut moment = crane
        .ready
        .saturating_add(travel(inst, crane.bay, task.bay));
    for (other, before) in inst.tasks().iter().zip(slots) {
        if before.crane == slot.crane && before.start < slot.start {
            let end = before.start.saturating_add(other.ticks);
            moment = moment.max(end.saturating_add(travel(inst, other.bay, task.bay)));
        }
    }
    Some(moment)
}

/// Whether a task starts at its release time, and its crane could be there before.
fn is_held(inst: &Instance, sched: &Schedule, number: usize) -> bool {
    let (Some(task), Some(slot)) = (inst.tasks().get(number), sched.slots().get(number)) else {
        return false;
    };
    match there(inst, sched, number) {
        Some(moment) => slot.start == task.release && moment < task.release,
        None => false,
    }
}

impl Paper<'_> {
    /// Puts the mark of a task behind the drawing: a line over the column of its hatch at its release time.
    fn put_release(&self, number: u16, page: &mut Page)
        requires ready { IsReady (view_of self.now.drawn.plan) }
        requires task { number < length (view_of self.now.drawn.plan).inst.tasks }
    {
        let task = self.drawn.plan.inst.task(number);
        let column = self.column(task.bay);
        let (left, y) = (column.from, self.down(task.release));
        let right = left.saturating_add(column.wide);
        page.begin_line((left, y), (right, y));
        page.put(b"stroke=\"#8c8c8c\" stroke-width=\"16\" stroke-dasharray=\"60 40\"><title>");
        page.put(task.text().as_bytes());
        page.put(b" not before ");
        page.put_number(task.release);
        page.put(b"</title></line>\n");
    }

    /// Puts the marks of all tasks for which a crane waits behind the drawing.
    pub(crate) fn put_releases(&self, page: &mut Page)
        requires { IsReady (view_of self.now.drawn.plan) }
    {
        let plan = self.drawn.plan;
        for task in 0..plan.inst.task_count() {
            if is_held(plan.inst, plan.sched, task as usize) {
                self.put_release(task, page);
            }
        }
    }
}
