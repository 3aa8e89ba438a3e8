//! The command that plans.
ghost use Rattle.std.specs.Prelude.{◌≡◌, ◌≤◌, IfOk, IfSome, IsSome, None, Ok, OnErr};
ghost use Rattle.qc_io.specs.Writes.{Counts};
ghost use Rattle.qc_model.specs.Instance.{Valid};
ghost use Rattle.qc_model.specs.Numbers.{most_branchings};
ghost use Rattle.qc_model.specs.OneWay.{IsAllowed};
ghost use Rattle.qc_run.specs.Due.{own_job_due};
ghost use Rattle.qc_run.specs.Steps.{ComesTo};
ghost use Rattle.qc_plan_command.specs.Account.{IsPlanRun, IsPlanning};
ghost use Rattle.qc_plan_command.specs.InitialPlan.{IsInitialPlan};
ghost use Rattle.qc_run.specs.Inputs.{names_of, planning};
ghost use Rattle.qc_plan_command.specs.Resources.{IsOpened, IsSearchFor, WasRun};
ghost use Rattle.qc_plan_command.specs.Promises.{PlanPromises};
ghost use Rattle.qc_plan_command.specs.Reports.{CanBeTold};
ghost use Rattle.qc_plan_command.specs.Stored.{IsCut, IsStored};
ghost use Rattle.qc_search.specs.Run.{search_from};

use crate::ahead::InitialPlan;
use crate::answer::PlanAnswer;
use crate::found::answer_of;
use crate::opened::{Resources, open_for};
use crate::report::report;
use crate::telling::tell;
use crate::way::own_way;
use qc_io::{Shelf, Sink, WriteFault};
use qc_model::Instance;
use qc_run::{Ended, OwnJob, PlanAsked, Stop, read_own_job, report_stop};
use qc_search::{Done, Search, store_best};
use std::alloc::Global;

/// Runs the search and makes the tree's file. Where a schedule is found ahead of it, it is offered that. Whoever waits is
/// told what is known before it.
fn run_search<S: Shelf>(
    asked: &PlanAsked<'_>,
    inst: &Instance,
    ahead: InitialPlan,
    mut search: Search,
    shelf: &mut S,
) -> Result<Done, WriteFault>
    requires search { search ≡ search_from inst.now asked.now.nodes search.first }
    requires ahead { IsInitialPlan inst.now ahead }
    ensures searched { WasRun inst.now asked.now.nodes search.first asked.now.tree.now
        (S.Sink.view shelf.old).files (S.Sink.view shelf.new).files result }
    ensures counts { Counts (S.Sink.view shelf.old).faults (S.Sink.view shelf.new).faults result }
    ensures read_faults { (S.Sink.view shelf.new).read_faults ≡ (S.Sink.view shelf.old).read_faults }
    ensures unmade { IfOk result (λ done. done.best ≡ None → (S.Sink.view shelf.new).made ≡ None) }
{
    ahead.offer_to(inst, &mut search);
    let known = search.outlook();
    tell(&search, known, shelf);
    search.store_tree(asked.tree, shelf)
}

/// Runs the search, and writes its tree and the plan of the best schedule that it knows. The plan's file is begun first,
/// so that one that can't be made is told before any search is run.
fn store_search<S: Shelf>(
    asked: &PlanAsked<'_>,
    job: &OwnJob,
    ahead: InitialPlan,
    search: Search,
    shelf: &mut S,
) -> Result<Done, WriteFault>
    requires valid { Valid job.now.inst }
    requires search { IsSearchFor job.now.inst asked.now.nodes job.now.own search }
    requires due { ComesTo (own_job_due (planning asked.now).inputs.own) (planning asked.now).inputs
        (S.Sink.view shelf.old).files (Ok job.now) }
    requires allowed { IfSome job.now.own (IsAllowed job.now.inst) }
    requires turn { job.now.inst.turn ≡ (planning asked.now).inputs.turn }
    requires ahead { IsInitialPlan job.now.inst ahead }
    ensures stored { IfOk result
        (IsStored (planning asked.now) (S.Sink.view shelf.old) (S.Sink.view shelf.new) job.now.inst) }
    ensures cut { OnErr result
        (IsCut (planning asked.now) (S.Sink.view shelf.old) (S.Sink.view shelf.new)) }
    ensures never_falls { (S.Sink.view shelf.old).faults ≤ (S.Sink.view shelf.new).faults }
{
    if shelf.create(asked.plan).is_err() {
        drop(ahead);
        drop(search);
        return Err(WriteFault);
    }
    let done = run_search(asked, &job.inst, ahead, search, shelf)?;
    match store_best(&job.inst, &done, asked.plan, shelf) {
        Ok(()) => Ok(done),
        Err(WriteFault) => {
            drop(done);
            Err(WriteFault)
        }
    }
}

/// Runs the search, writes what it came to, and answers what is told of it.
fn plan_job<S: Shelf>(
    asked: &PlanAsked<'_>,
    job: OwnJob,
    opened: Resources,
    shelf: &mut S,
) -> PlanAnswer
    requires opened { IsOpened job.inst asked.now.nodes job.own opened }
    requires due { ComesTo (own_job_due (planning asked.now).inputs.own) (planning asked.now).inputs
        (S.Sink.view shelf.old).files (Ok job) }
    requires allowed { IfSome job.own (IsAllowed job.inst) }
    requires turn { job.inst.turn ≡ (planning asked.now).inputs.turn }
    ensures serves { IsPlanning (planning asked.now) (S.Sink.view shelf.old) (S.Sink.view shelf.new) (Ok result) }
    ensures ready { CanBeTold result }
    ensures never_falls { (S.Sink.view shelf.old).faults ≤ (S.Sink.view shelf.new).faults }
{
    let Resources {
        room,
        ahead,
        search,
    } = opened;
    let Ok(done) = store_search(asked, &job, ahead, search, shelf) else {
        drop(room);
        drop(job);
        return PlanAnswer::WriteFault;
    };
    let OwnJob { inst, own } = job;
    drop(own);
    answer_of(inst, done, room)
}

/// Reads the ship file and the stowage list, and the planner's own plan where one is named, which cranes must be able
/// to follow; looks for a plan to begin with, searches, and writes the tree and the plan. All memory is taken before
/// anything is written.
fn serve<S: Shelf>(alloc: Global, asked: &PlanAsked<'_>, shelf: &mut S) -> Result<PlanAnswer, Stop>
    requires stow { IsSome (names_of asked.now.inputs).stow }
    requires nodes { asked.now.nodes ≤ most_branchings }
    ensures serves { IsPlanning (planning asked.now) (S.Sink.view shelf.old) (S.Sink.view shelf.new) result }
    ensures ready { IfOk result CanBeTold }
    ensures never_falls { (S.Sink.view shelf.old).faults ≤ (S.Sink.view shelf.new).faults }
    ensures reads_never_fall { (S.Sink.view shelf.old).read_faults ≤ (S.Sink.view shelf.new).read_faults }
{
    let job = read_own_job(alloc, &asked.inputs, shelf)?;
    let way = match own_way(&job) {
        Ok(way) => way,
        Err(broken) => {
            drop(job);
            return Ok(PlanAnswer::Broken(broken));
        }
    };
    let Ok(opened) = open_for(alloc, &job.inst, job.own.as_ref(), way, asked.nodes, shelf) else {
        drop(job);
        return Err(Stop::OutOfMemory);
    };
    Ok(plan_job(asked, job, opened, shelf))
}

/// Plans, and reports to `out`: by schedules that go one way, or by all that are feasible, as is asked.
pub fn plan<S: Shelf, K: Sink>(
    alloc: Global,
    asked: &PlanAsked<'_>,
    shelf: &mut S,
    out: &mut K,
) -> Ended
    requires stow { IsSome (names_of asked.now.inputs).stow }
    requires nodes { asked.now.nodes ≤ most_branchings }
    ensures account { IsPlanRun (planning asked.now) (S.Sink.view shelf.old) (S.Sink.view shelf.new)
        (K.Sink.view out.old) (K.Sink.view out.new) result.status }
    ensures promises { PlanPromises (planning asked.now) (S.Sink.view shelf.old) (S.Sink.view shelf.new)
        (K.Sink.view out.old) (K.Sink.view out.new) result.status }
    ensures never_falls { (S.Sink.view shelf.old).faults ≤ (S.Sink.view shelf.new).faults }
    ensures reads_never_fall { (S.Sink.view shelf.old).read_faults ≤ (S.Sink.view shelf.new).read_faults }
{
    match serve(alloc, asked, shelf) {
        Ok(answer) => report(answer, out),
        Err(stop) => report_stop(stop, out),
    }
}
