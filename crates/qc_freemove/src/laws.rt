//! What holds of the motion of every feasible schedule.

ghost use Rattle.std.specs.Prelude.{◌<◌, ℕ, List, length};
ghost use Rattle.qc_model.specs.declared.schedule.Slot.{Slot};
ghost use Rattle.qc_model.specs.Instance.{HasValidCranes, InstanceView, Valid};
ghost use Rattle.qc_model.specs.Rules.{Feasible};
ghost use Rattle.qc_freemove.specs.declared.track.HalfPoint.{HalfPoint};
ghost use Rattle.qc_freemove.specs.FreeMotion.{IsFreeSafe};
ghost use Rattle.qc_freemove.specs.HalfLines.{MovesBetween};
ghost use Rattle.qc_freemove.specs.HalfPoints.{AreHalfPoints};

/// Every feasible schedule moves safely, fractions of a tick included, however long or short its tasks are.
fn feasible_schedules_are_safe()
    ensures { (inst : InstanceView) (sched : List Slot) → HasValidCranes inst → Feasible inst sched
        → IsFreeSafe inst sched }
{}

/// The points of a crane tell its place at every moment from the first to the last: it goes evenly from
/// each to the next.
fn points_tell_all()
    ensures { (inst : InstanceView) (sched : List Slot) (k : ℕ) (points : List HalfPoint)
        → Valid inst → k < length inst.cranes → AreHalfPoints inst sched k points
        → MovesBetween inst sched k points }
{}
