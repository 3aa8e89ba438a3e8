//! What holds of the work in the end, whatever lengths tasks turn out to have.

ghost use Rattle.std.specs.Prelude.{ℕ, List};
ghost use Rattle.qc_model.specs.declared.schedule.Slot.{Slot};
ghost use Rattle.qc_model.specs.declared.task.Task.{Task};
ghost use Rattle.qc_model.specs.Instance.{InstanceView, Valid};
ghost use Rattle.qc_model.specs.Rules.{Feasible};
ghost use Rattle.qc_dispatch.specs.declared.fault.DispatchFault.{DispatchFault};
ghost use Rattle.qc_dispatch.specs.Course.{Course};
ghost use Rattle.qc_dispatch.specs.Journal.{IsFaulty, IsFollowed, Journal};
ghost use Rattle.qc_dispatch.specs.Promises.{Keeps};
ghost use Rattle.qc_dispatch.specs.Worked.{IsWorked, with_tasks};

/// Once all tasks have ended, the work was a feasible schedule of the instance with the lengths that they really took,
/// whatever these are: also where a task began later than it was granted, or was over sooner than it was reported.
fn work_is_feasible()
    ensures { (course : Course) (tasks : List Task) (sched : List Slot) → Valid course.inst
        → Feasible course.inst course.plan → Keeps course → IsWorked course tasks sched
        → Feasible (with_tasks course.inst tasks) sched }
{}

/// A log that is followed to its end has no fault: it is followed in one way only.
fn followed_logs_have_no_fault()
    ensures { (inst : InstanceView) (plan : List Slot) (text : List ℕ) (journal : Journal) (fault : DispatchFault)
        → IsFollowed inst plan text journal → ¬ IsFaulty inst plan text fault }
{}
