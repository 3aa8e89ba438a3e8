//! The search of a trial on a shelf in memory, and the check of what it stored there. A fault of that shelf is want
//! of memory.
ghost use Rattle.std.specs.Prelude.{◌≡◌, List, IfOk, IfSome, IsSomeAnd, Some};
ghost use Rattle.qc_model.specs.declared.schedule.Slot.{Slot};
ghost use Rattle.qc_model.specs.declared.turn.Turn.TheVariants.{OneWay};
ghost use Rattle.qc_model.specs.Judge.{IsJudgeable};
ghost use Rattle.qc_model.specs.OneWay.{IsAllowed};
ghost use Rattle.qc_model.specs.Rules.{ends};
ghost use Rattle.qc_tree.specs.Trees.{NoneEarlier, Tree, tree_value};
ghost use Rattle.qc_trial.specs.Made.{verdict_of};
ghost use Rattle.qc_trial.specs.Stored.{AreStored, IsPlanStored, IsSearchFor, IsTreeStored, verdict_alone, verdict_at};

use crate::made::Verdict;
use qc_gantt::{PlanError, read_plan};
use qc_io::{MemShelf, Shelf, WriteFault};
use qc_model::{Instance, Schedule, direction_of, ends};
use qc_num::{Bound, OutOfMemory, Tick};
use qc_replay::{ReplayError, replay};
use qc_search::{Done, EFFORT, Search, store_best};
use qc_sweep::first_plan;
use std::alloc::Global;

/// The most branchings of the search.
const BRANCHINGS: u32 = 500;

/// The names of the plan's file and of the tree's file on the shelf.
const PLAN: &str = "plan";

const TREE: &str = "tree";

/// A search of the instance, which is offered a first plan, if any is found.
fn search_for(alloc: Global, inst: &Instance) -> Result<Search, OutOfMemory>
    requires { inst.now.turn ≡ OneWay }
    ensures { IfOk result (IsSearchFor inst.now) }
{
    let mut search = Search::open(alloc, inst, BRANCHINGS)?;
    if let Some(found) = first_plan(alloc, inst, EFFORT)? {
        search.offer(&found.sched, found.way);
    }
    Ok(search)
}

/// Searches the instance, and stores its tree and the plan of the best schedule.
pub(crate) fn store_search<S: Shelf>(
    alloc: Global,
    inst: &Instance,
    shelf: &mut S,
) -> Result<Done, OutOfMemory>
    requires { inst.now.turn ≡ OneWay }
    ensures { IfOk result (λ done. IfSome (S.Sink.view shelf.old).files (λ held.
        IsSomeAnd (S.Sink.view shelf.new).files (λ files. AreStored inst.now files done))) }
{
    let search = search_for(alloc, inst)?;
    let Ok(done) = search.store_tree(TREE, shelf) else {
        return Err(OutOfMemory);
    };
    match store_best(inst, &done, PLAN, shelf) {
        Ok(()) => Ok(done),
        Err(WriteFault) => Err(OutOfMemory),
    }
}

/// The schedule of the stored plan; none where it is no plan of the instance.
fn stored_schedule(
    alloc: Global,
    inst: &Instance,
    shelf: &MemShelf,
) -> Result<Option<Schedule>, OutOfMemory>
    ensures sched { (sched : List Slot) → IsPlanStored inst.now shelf.now.files sched
        → IfOk result (λ read. read ≡ Some sched) }
    ensures judgeable { IfOk result (λ read. IfSome read (IsJudgeable inst.now)) }
{
    let Some(bytes) = shelf.bytes(PLAN) else {
        return Ok(None);
    };
    match read_plan(alloc, bytes, inst) {
        Ok(sched) => Ok(Some(sched)),
        Err(PlanError::Fault(_)) => Ok(None),
        Err(PlanError::OutOfMemory) => Err(OutOfMemory),
    }
}

/// What the stored tree shows; none where it is no tree of the instance.
fn stored_bound(
    alloc: Global,
    inst: &Instance,
    shelf: &mut MemShelf,
) -> Result<Option<Bound>, OutOfMemory>
    ensures value { (tree : Tree) → IsTreeStored inst.now shelf.old.files tree
        → IfOk result (λ bound. bound ≡ Some (tree_value inst.now tree)) }
    ensures none_earlier { IfOk result (λ bound. IfSome bound (NoneEarlier inst.now)) }
    ensures files { shelf.new.files ≡ shelf.old.files }
{
    match replay(alloc, inst, shelf, TREE) {
        Ok(read) => Ok(Some(read.bound)),
        Err(ReplayError::Tree(_)) => Ok(None),
        Err(ReplayError::ReadFault | ReplayError::OutOfMemory) => Err(OutOfMemory),
    }
}

/// What a check says of a tree alone that shows this.
fn verdict_alone(bound: Bound) -> Verdict
    ensures { result ≡ verdict_alone bound }
{
    match bound {
        Bound::Least(_) => Verdict::Bound,
        Bound::Never => Verdict::Infeasible,
    }
}

/// What a check says of a plan that holds and ends then.
fn verdict_on(bound: Bound, end: Tick) -> Verdict
    ensures { result ≡ verdict_at bound end }
{
    if bound.reaches(end) {
        Verdict::Optimal
    } else {
        Verdict::Weaker
    }
}

/// What a check says of the stored plan, and of a tree that shows this.
fn check_plan(
    alloc: Global,
    inst: &Instance,
    bound: Bound,
    shelf: &MemShelf,
) -> Result<Verdict, OutOfMemory>
    requires { inst.now.turn ≡ OneWay }
    ensures { (sched : List Slot) → IsPlanStored inst.now shelf.now.files sched → IsAllowed inst.now sched
        → IfOk result (λ verdict. verdict ≡ verdict_at bound (ends inst.now sched)) }
{
    let Some(sched) = stored_schedule(alloc, inst, shelf)? else {
        return Ok(Verdict::Broken);
    };
    match direction_of(inst, &sched) {
        Ok(_) => Ok(verdict_on(bound, ends(inst, &sched))),
        Err(_) => Ok(Verdict::Broken),
    }
}

/// What a check says of the stored plan and tree, or of the tree alone where no schedule was met.
pub(crate) fn check_stored(
    alloc: Global,
    inst: &Instance,
    done: &Done,
    shelf: &mut MemShelf,
) -> Result<Verdict, OutOfMemory>
    requires stored { AreStored inst.now shelf.old.files done.now }
    requires one_way { inst.now.turn ≡ OneWay }
    ensures { IfOk result (λ verdict. verdict ≡ verdict_of done.now.kind done.now.best) }
{
    let Some(bound) = stored_bound(alloc, inst, shelf)? else {
        return Ok(Verdict::Broken);
    };
    match done.best() {
        Some(_) => check_plan(alloc, inst, bound, shelf),
        None => Ok(verdict_alone(bound)),
    }
}
