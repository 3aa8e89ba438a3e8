//! What is taken for a search, before anything is written.
ghost use Rattle.std.specs.Prelude.{◌≡◌, ◌≤◌, IfOk, IfSome, option_map};
ghost use Rattle.qc_model.specs.Judge.{IsJudgeable};
ghost use Rattle.qc_model.specs.Numbers.{most_branchings};
ghost use Rattle.qc_plan_command.specs.Resources.{IsOpened, IsSearchFor};
ghost use Rattle.qc_starts.specs.Tight.{IsSeenSo};

use crate::ahead::{InitialPlan, ahead_of};
use crate::room::{TrackBuffer, room_for};
use qc_io::Shelf;
use qc_model::{Direction, Instance, Schedule};
use qc_num::OutOfMemory;
use qc_search::Search;
use std::alloc::Global;

/// All that a plan of an instance takes.
#[derive(Drop)]
pub(crate) struct Resources {
    pub(crate) room: TrackBuffer,
    pub(crate) ahead: InitialPlan,
    pub(crate) search: Search,
}

/// A search with at most so many branchings, which is offered the planner's own schedule, if there is one, as it is seen
/// that way.
fn search_for(
    alloc: Global,
    inst: &Instance,
    own: Option<&Schedule>,
    way: Direction,
    nodes: u32,
) -> Result<Search, OutOfMemory>
    requires nodes { nodes ≤ most_branchings }
    requires own { IfSome own (λ sched. IsJudgeable inst.now sched.now) }
    requires seen { IfSome own (λ sched. IsSeenSo inst.now.turn inst.now sched.now way) }
    ensures { IfOk result (IsSearchFor inst.now nodes (option_map (λ sched. sched.now) own.entry)) }
{
    let mut search = Search::open(alloc, inst, nodes)?;
    if let Some(sched) = own {
        search.offer(sched, way);
    }
    Ok(search)
}

/// What a plan of the instance takes, with at most so many branchings, where the planner has this schedule or none. When the
/// best plan ends is told as it is found.
pub(crate) fn open_for<S: Shelf>(
    alloc: Global,
    inst: &Instance,
    own: Option<&Schedule>,
    way: Direction,
    nodes: u32,
    shelf: &mut S,
) -> Result<Resources, OutOfMemory>
    requires nodes { nodes ≤ most_branchings }
    requires own { IfSome own (λ sched. IsJudgeable inst.now sched.now) }
    requires seen { IfSome own (λ sched. IsSeenSo inst.now.turn inst.now sched.now way) }
    ensures is { IfOk result (IsOpened inst.now nodes (option_map (λ sched. sched.now) own.entry)) }
    ensures stays { S.Sink.view shelf.new ≡ S.Sink.view shelf.old }
{
    let room = room_for(alloc, inst)?;
    let Ok(ahead) = ahead_of(alloc, inst, own, nodes, shelf) else {
        drop(room);
        return Err(OutOfMemory);
    };
    let Ok(search) = search_for(alloc, inst, own, way, nodes) else {
        drop(ahead);
        drop(room);
        return Err(OutOfMemory);
    };
    Ok(Resources {
        room,
        ahead,
        search,
    })
}
