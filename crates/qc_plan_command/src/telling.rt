//! What whoever waits is told ahead of a search.
ghost use Rattle.std.specs.Prelude.{◌≡◌, IfOk, IfSome};
ghost use Rattle.qc_model.specs.Judge.{IsJudgeable};
ghost use Rattle.qc_num.specs.declared.bound.Bound.TheVariants.{Least};
ghost use Rattle.qc_sweep.specs.Plans.{IsFirstPlan};
ghost use Rattle.qc_tree.specs.Trees.{NoneEarlier};

use qc_io::{Outlook, Shelf};
use qc_model::{Instance, Schedule, ends};
use qc_num::{OutOfMemory, Tick};
use qc_search::{EFFORT, Search};
use qc_sweep::{Going, run_sweeps};
use std::alloc::Global;

/// Tells whoever waits for a search what is known of it: no schedule that cranes may follow ends before the bound.
pub(crate) fn tell<S: Shelf>(_waited: &Search, known: Outlook, shelf: &mut S)
    requires { IfSome known.bound (λ bound. NoneEarlier _waited.now.inst (Least bound)) }
    ensures { S.Sink.view shelf.new ≡ S.Sink.view shelf.old }
{
    shelf.tell(known);
}

/// Tells whoever waits when the best plan ends, in ticks, that is known while one is looked for with which a search begins.
/// No branching is made meanwhile, and no bound is known.
fn tell_found<S: Shelf>(end: Option<Tick>, shelf: &mut S)
    ensures { S.Sink.view shelf.new ≡ S.Sink.view shelf.old }
{
    shelf.tell(Outlook {
        limit: 0,
        end,
        bound: None,
    });
}

/// The earlier of two ends, where any is known.
fn earlier(one: Option<Tick>, other: Option<Tick>) -> Option<Tick> {
    match (one, other) {
        (Some(one), Some(other)) => Some(one.min(other)),
        (Some(one), None) => Some(one),
        (None, other) => other,
    }
}

/// When the planner's own schedule ends, if there is one, in ticks.
pub(crate) fn own_end(inst: &Instance, own: Option<&Schedule>) -> Option<Tick>
    requires { IfSome own (λ sched. IsJudgeable inst.now sched.now) }
{
    match own {
        Some(sched) => Some(ends(inst, sched)),
        None => None,
    }
}

/// When a plan ends that was found, if any was, in ticks.
fn end_of(inst: &Instance, found: &Option<Going>) -> Option<Tick>
    requires { IfSome found.now (IsFirstPlan inst.now) }
{
    match found {
        Some(found) => Some(ends(inst, &found.sched)),
        None => None,
    }
}

/// The plan of the instance that sweeps and then local searches find, if any. When it ends, or the planner's own where that
/// ends earlier, is told as it comes.
pub(crate) fn first_found<S: Shelf>(
    alloc: Global,
    inst: &Instance,
    own_end: Option<Tick>,
    shelf: &mut S,
) -> Result<Option<Going>, OutOfMemory>
    ensures found { IfOk result (λ found. IfSome found (IsFirstPlan inst.now)) }
    ensures stays { S.Sink.view shelf.new ≡ S.Sink.view shelf.old }
{
    tell_found(own_end, shelf);
    let Some(swept) = run_sweeps(alloc, inst, EFFORT)? else {
        return Ok(None);
    };
    tell_found(earlier(own_end, swept.end(inst)), shelf);
    let found = swept.improved(alloc, inst)?;
    tell_found(earlier(own_end, end_of(inst, &found)), shelf);
    Ok(found)
}
