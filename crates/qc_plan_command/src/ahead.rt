//! The plan that is found ahead of a search, which is offered it.
ghost use Rattle.std.specs.Prelude.{◌≡◌, ◌≤◌, IfOk, IfSome, List, Option};
ghost use Rattle.qc_model.specs.declared.schedule.Slot.{Slot};
ghost use Rattle.qc_model.specs.declared.turn.Turn.TheVariants.{OneWay};
ghost use Rattle.qc_model.specs.Instance.{with_turn};
ghost use Rattle.qc_model.specs.Judge.{IsJudgeable};
ghost use Rattle.qc_model.specs.Numbers.{most_branchings};
ghost use Rattle.qc_plan_command.specs.InitialPlan.{IsInitialPlan, IsGoing};
ghost use Rattle.qc_search.specs.Outcome.{WasOffered};
ghost use Rattle.qc_search.specs.Run.{search_from};

use crate::nowhere::Nowhere;
use crate::telling::{first_found, own_end};
use crate::way::way_of;
use qc_io::Shelf;
use qc_model::{Instance, Schedule, Turn, copy, direction_of};
use qc_num::OutOfMemory;
use qc_search::Search;
use qc_sweep::Going;
use std::alloc::Global;

/// What is known ahead of a search, or is to be searched ahead of it. All memory is taken.
#[derive(Drop)]
pub(crate) enum InitialPlan {
    /// Where cranes go one way: what sweeps and local searches found.
    Swept(Option<Going>),
    /// Where they go as they like: a search for a plan that goes one way.
    OneWay(Search),
}

/// Offers a search for a plan that goes one way the planner's own, where that goes one way.
fn offer_own(search: &mut Search, inst: &Instance, own: Option<&Schedule>)
    requires inst { search.old.inst ≡ inst.now }
    requires one_way { inst.now.turn ≡ OneWay }
    requires own { IfSome own (λ sched. IsJudgeable inst.now sched.now) }
    ensures { search.new.inst ≡ search.old.inst }
{
    if let Some(sched) = own {
        if let Ok(way) = direction_of(inst, sched) {
            search.offer(sched, way);
        }
    }
}

/// A search for a plan that goes one way, with at most so many branchings. It is offered the planner's own, where that
/// goes one way, and what sweeps and local searches find.
fn one_way_search<S: Shelf>(
    alloc: Global,
    inst: &Instance,
    own: Option<&Schedule>,
    nodes: u32,
    shelf: &mut S,
) -> Result<Search, OutOfMemory>
    requires nodes { nodes ≤ most_branchings }
    requires own { IfSome own (λ sched. IsJudgeable inst.now sched.now) }
    ensures is { IfOk result (λ search. search.inst ≡ with_turn inst.now OneWay) }
    ensures stays { S.Sink.view shelf.new ≡ S.Sink.view shelf.old }
{
    let own_end = own_end(inst, own);
    let inst = copy(alloc, inst)?.with_turn(Turn::OneWay);
    let Ok(mut search) = Search::open(alloc, &inst, nodes) else {
        drop(inst);
        return Err(OutOfMemory);
    };
    offer_own(&mut search, &inst, own);
    let Ok(found) = first_found(alloc, &inst, own_end, shelf) else {
        drop(search);
        drop(inst);
        return Err(OutOfMemory);
    };
    if let Some(found) = found {
        search.offer(&found.sched, found.way);
    }
    Ok(search)
}

/// What is known or to be searched ahead of a search with at most so many branchings; the planner's own takes part in a
/// search for one that goes one way. When the best plan ends is told as it is found.
pub(crate) fn ahead_of<S: Shelf>(
    alloc: Global,
    inst: &Instance,
    own: Option<&Schedule>,
    nodes: u32,
    shelf: &mut S,
) -> Result<InitialPlan, OutOfMemory>
    requires nodes { nodes ≤ most_branchings }
    requires own { IfSome own (λ sched. IsJudgeable inst.now sched.now) }
    ensures is { IfOk result (IsInitialPlan inst.now) }
    ensures stays { S.Sink.view shelf.new ≡ S.Sink.view shelf.old }
{
    match inst.turn() {
        Turn::OneWay => {
            let found = first_found(alloc, inst, own_end(inst, own), shelf)?;
            Ok(InitialPlan::Swept(found))
        }
        Turn::Free => {
            let search = one_way_search(alloc, inst, own, nodes, shelf)?;
            Ok(InitialPlan::OneWay(search))
        }
    }
}

/// The best plan that a search for one that goes one way knows at its end, where the cranes of the instance
/// may follow it.
fn best_of(search: Search, inst: &Instance) -> Option<Going>
    requires { search.inst ≡ with_turn inst.now OneWay }
    ensures { IfSome result (IsGoing inst.now) }
{
    let Ok(done) = search.run(&mut Nowhere) else {
        return None;
    };
    let sched = done.into_best()?;
    match way_of(inst, &sched) {
        Ok(way) => Some(Going { sched, way }),
        Err(_) => None,
    }
}

impl InitialPlan {
    /// The plan that is found ahead of the search of this instance, if any is.
    fn found(self, inst: &Instance) -> Option<Going>
        requires { IsInitialPlan inst.now self }
        ensures { IfSome result (IsGoing inst.now) }
    {
        match self {
            InitialPlan::Swept(found) => found,
            InitialPlan::OneWay(search) => best_of(search, inst),
        }
    }

    /// Offers that plan to the search.
    pub(crate) fn offer_to(self, inst: &Instance, search: &mut Search)
        requires ahead { IsInitialPlan inst.now self }
        requires plain { search.old ≡ search_from inst.now search.old.nodes search.old.first }
        ensures stays { search.new ≡ search_from inst.now search.old.nodes search.new.first }
        ensures offered { (found : Option (List Slot)) × WasOffered inst.now found search.old.first search.new.first }
    {
        if let Some(found) = self.found(inst) {
            search.offer(&found.sched, found.way);
        }
    }
}
