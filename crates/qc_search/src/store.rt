//! The storing of the plan of the best schedule that a search knows. Its file is whole or as it was.
ghost use Rattle.std.specs.Prelude.{◌≡◌, ◌⊎◌, None, Some, IfSome, OnOk, OnErr};
ghost use Rattle.std.specs.FinMap.{insert};
ghost use Rattle.qc_gantt.specs.Plan.{HasShortEnds};
ghost use Rattle.qc_gantt.specs.PlanText.{plan_text};
ghost use Rattle.qc_io.specs.Writes.{Counts};
ghost use Rattle.qc_model.specs.Judge.{IsJudgeable};
ghost use Rattle.qc_search.specs.Outcome.{IsReread};
ghost use Rattle.qc_search.specs.Stored.{with_plan};

use crate::done::Done;
use qc_gantt::write_plan;
use qc_io::{Shelf, WriteFault};
use qc_model::{Instance, Schedule};

/// Makes the plan's file.
fn store_plan<S: Shelf>(
    inst: &Instance,
    sched: &Schedule,
    name: &str,
    shelf: &mut S,
) -> Result<(), WriteFault>
    requires { IsJudgeable inst.now sched.now }
    ensures ok { OnOk result (IfSome (S.Sink.view shelf.old).files (λ held. (S.Sink.view shelf.new).files
        ≡ Some (insert held name.now (plan_text inst.now sched.now)))) }
    ensures err { OnErr result (IfSome (S.Sink.view shelf.old).files (λ held.
        ((S.Sink.view shelf.new).files ≡ Some held)
        ⊎ ((S.Sink.view shelf.new).files ≡ Some (insert held name.now (plan_text inst.now sched.now))))) }
    ensures reread { OnOk result (HasShortEnds inst.now sched.now → IsReread inst.now sched.now) }
    ensures unmade { OnOk result ((S.Sink.view shelf.new).made ≡ None) }
    ensures counts { Counts (S.Sink.view shelf.old).faults (S.Sink.view shelf.new).faults result }
    ensures read_faults { (S.Sink.view shelf.new).read_faults ≡ (S.Sink.view shelf.old).read_faults }
{
    shelf.create(name)?;
    write_plan(inst, sched, shelf)?;
    shelf.finish()?;
    Ok(())
}

/// Makes the plan's file where the search knows a schedule, and else none.
pub fn store_best<S: Shelf>(
    inst: &Instance,
    done: &Done,
    name: &str,
    shelf: &mut S,
) -> Result<(), WriteFault>
    requires { IfSome done.now.best (IsJudgeable inst.now) }
    ensures ok { OnOk result (IfSome (S.Sink.view shelf.old).files (λ held.
        (S.Sink.view shelf.new).files ≡ Some (with_plan held name.now inst.now done.now.best))) }
    ensures err { OnErr result (IfSome (S.Sink.view shelf.old).files (λ held.
        ((S.Sink.view shelf.new).files ≡ Some held)
        ⊎ ((S.Sink.view shelf.new).files ≡ Some (with_plan held name.now inst.now done.now.best)))) }
    ensures reread { OnOk result (IfSome done.now.best (λ sched.
        HasShortEnds inst.now sched → IsReread inst.now sched)) }
    ensures unmade { (done.now.best ≡ None → (S.Sink.view shelf.old).made ≡ None)
        → OnOk result ((S.Sink.view shelf.new).made ≡ None) }
    ensures counts { Counts (S.Sink.view shelf.old).faults (S.Sink.view shelf.new).faults result }
    ensures read_faults { (S.Sink.view shelf.new).read_faults ≡ (S.Sink.view shelf.old).read_faults }
{
    match done.best() {
        Some(sched) => store_plan(inst, sched, name, shelf),
        None => Ok(()),
    }
}
