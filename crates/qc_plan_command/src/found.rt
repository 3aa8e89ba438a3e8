//! What is told of a search.
ghost use Rattle.std.specs.Prelude.{IfSome, length};
ghost use Rattle.qc_model.specs.Judge.{IsJudgeable};
ghost use Rattle.qc_starts.specs.Tight.{IsAllowedSo, IsTight};
ghost use Rattle.qc_tree.specs.Trees.{NoneEarlier};
ghost use Rattle.qc_search.specs.Outcome.{IsReread};
ghost use Rattle.qc_plan_command.specs.Found.{Tells};
ghost use Rattle.qc_plan_command.specs.Reports.{CanBeTold};
ghost use Rattle.qc_plan_command.specs.Rooms.{IsRoom};

use crate::answer::{PlanAnswer, Planned};
use crate::room::{TrackBuffer, motion_of};
use qc_model::{Instance, ends};
use qc_num::Bound;
use qc_search::Done;

/// The answer that tells what a search came to; the room is for its motion.
pub(crate) fn answer_of(inst: Instance, done: Done, room: TrackBuffer) -> PlanAnswer
    requires none_earlier { NoneEarlier inst done.bound }
    requires judgeable { IfSome done.best (IsJudgeable inst) }
    requires tight { IfSome done.best (IsTight inst) }
    requires goes { IfSome done.best (λ sched. IsAllowedSo inst.turn inst sched done.way) }
    requires reread { IfSome done.best (IsReread inst) }
    requires room { IsRoom inst.turn (length inst.tasks) room }
    ensures tells { Tells inst done result }
    ensures ready { CanBeTold result }
{
    let kind = done.kind();
    let branched = u64::from(done.branched());
    let Bound::Least(bound) = done.bound() else {
        drop(done);
        drop(room);
        drop(inst);
        return PlanAnswer::Infeasible { branched };
    };
    let (given, way) = (done.given(), done.way());
    let Some(sched) = done.into_best() else {
        drop(room);
        drop(inst);
        return PlanAnswer::Unplanned { bound, branched };
    };
    let motion = motion_of(&inst, &sched, way, room);
    PlanAnswer::Planned(Planned {
        kind,
        end: ends(&inst, &sched),
        bound,
        branched,
        given,
        motion,
        inst,
        sched,
    })
}
