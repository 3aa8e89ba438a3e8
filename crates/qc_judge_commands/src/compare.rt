//! The command that checks a plan beside a tree.
ghost use Rattle.std.specs.Prelude.{◌≤◌, Ok, IsSome};
ghost use Rattle.qc_model.specs.Judge.{IsJudgeable};
ghost use Rattle.qc_model.specs.OneWay.{IsAllowed};
ghost use Rattle.qc_tree.specs.Trees.{NoneEarlier};
ghost use Rattle.qc_run.specs.Due.{job_due};
ghost use Rattle.qc_run.specs.Inputs.{names_of};
ghost use Rattle.qc_run.specs.Steps.{ComesTo};
ghost use Rattle.qc_judge_commands.specs.Account.{IsJudging, IsPlanCheckRun};
ghost use Rattle.qc_judge_commands.specs.Promises.{PlanCheckPromises};
ghost use Rattle.qc_judge_commands.specs.Held.{TellsHeld};

use crate::answer::{Compared, Judged};
use crate::judged::report;
use crate::reading::read_tree;
use qc_io::{Shelf, Sink};
use qc_model::{Instance, Schedule, ends};
use qc_num::Bound;
use qc_run::{Ended, Inputs, Job, Stop, broken_by, broken_of, read_job, report_stop};
use std::alloc::Global;

/// What is told of a schedule that cranes may follow, beside what a tree shows.
fn compared_of(inst: &Instance, sched: &Schedule, bound: Bound) -> Compared
    requires judgeable { IsJudgeable inst.now sched.now }
    requires goes { IsAllowed inst.now sched.now }
    requires none_earlier { NoneEarlier inst.now bound }
    ensures { TellsHeld inst.now sched.now bound result }
{
    let Bound::Least(bound) = bound else {
        unreachable!()
    };
    Compared {
        end: ends(inst, sched),
        bound,
    }
}

/// Replays the tree beside a schedule that cranes may follow.
fn compare<S: Shelf>(
    alloc: Global,
    inputs: &Inputs<'_>,
    job: &Job,
    shelf: &mut S,
) -> Result<Judged, Stop>
    requires tree { IsSome (names_of inputs.now).tree }
    requires due { ComesTo job_due (names_of inputs.now) (S.Sink.view shelf.old).files (Ok job.now) }
    requires judgeable { IsJudgeable job.now.inst job.now.sched }
    requires goes { IsAllowed job.now.inst job.now.sched }
    ensures { IsJudging (names_of inputs.now) (S.Sink.view shelf.old) (S.Sink.view shelf.new) result }
{
    match read_tree(alloc, inputs, &job.inst, shelf) {
        Ok(read) => Ok(Judged::Compared(compared_of(&job.inst, &job.sched, read.bound))),
        Err(stop) => Err(stop),
    }
}

/// Reads the ship file, the stowage list and the plan's file and judges the plan: it must go one way, or be feasible
/// where all such plans are asked about. The tree's file is opened only where the plan holds.
fn judge<S: Shelf>(alloc: Global, inputs: &Inputs<'_>, shelf: &mut S) -> Result<Judged, Stop>
    requires stow { IsSome (names_of inputs.now).stow }
    requires plan { IsSome (names_of inputs.now).plan }
    requires tree { IsSome (names_of inputs.now).tree }
    ensures { IsJudging (names_of inputs.now) (S.Sink.view shelf.old) (S.Sink.view shelf.new) result }
{
    let job = match read_job(alloc, inputs, shelf) {
        Ok(job) => job,
        Err(stop) => return Err(stop),
    };
    match broken_by(job.inst.turn(), &job.inst, &job.sched) {
        None => compare(alloc, inputs, &job, shelf),
        Some(broken) => Ok(Judged::Broken(broken_of(&job.inst, broken))),
    }
}

/// Checks a plan beside a tree, and prints what came of it.
pub fn check_plan<S: Shelf, K: Sink>(
    alloc: Global,
    inputs: &Inputs<'_>,
    shelf: &mut S,
    out: &mut K,
) -> Ended
    requires stow { IsSome (names_of inputs.now).stow }
    requires plan { IsSome (names_of inputs.now).plan }
    requires tree { IsSome (names_of inputs.now).tree }
    ensures account { IsPlanCheckRun (names_of inputs.now) (S.Sink.view shelf.old) (S.Sink.view shelf.new)
        (K.Sink.view out.old) (K.Sink.view out.new) result.status }
    ensures promises { PlanCheckPromises (names_of inputs.now) (S.Sink.view shelf.old) (S.Sink.view shelf.new)
        (K.Sink.view out.old) (K.Sink.view out.new) result.status }
    ensures reads_never_fall { (S.Sink.view shelf.old).read_faults ≤ (S.Sink.view shelf.new).read_faults }
{
    match judge(alloc, inputs, shelf) {
        Ok(answer) => report(answer, out),
        Err(stop) => report_stop(stop, out),
    }
}
