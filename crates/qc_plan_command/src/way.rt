//! The way in which a plan is seen that comes in, and the direction that is told of one.
ghost use Rattle.std.specs.Prelude.{◌<◌, IfErr, IfOk, IfSome, IsSomeAnd, length};
ghost use Rattle.qc_model.specs.Judge.{Goes, IsDirection, IsJudgeable};
ghost use Rattle.qc_run.specs.Broken.{IsBrokenBy, TellsBreakBy};
ghost use Rattle.qc_starts.specs.Tight.{IsSeenSo};

use qc_model::{Break, Direction, Instance, Schedule, Turn, direction_of, first_break};
use qc_run::{Broken, OwnJob, broken_of, broken_rule};

/// The way in which a schedule is seen that cranes may follow, else the first rule that it breaks, and where.
pub(crate) fn way_of(inst: &Instance, sched: &Schedule) -> Result<Direction, Break>
    requires { IsJudgeable inst.now sched.now }
    ensures seen { IfOk result (IsSeenSo inst.now.turn inst.now sched.now) }
    ensures broken { IfErr result (IsBrokenBy inst.now.turn inst.now sched.now) }
    ensures first { IfErr result (λ b. b.first < length inst.now.tasks) }
    ensures second { IfErr result (λ b. b.second < length inst.now.tasks) }
{
    match inst.turn() {
        Turn::OneWay => direction_of(inst, sched),
        Turn::Free => match broken_rule(inst, sched) {
            None => Ok(Direction::Up),
            Some(broken) => Err(broken),
        },
    }
}

/// The way in which the planner's own schedule is seen, if there is one; or what is told of it where it breaks a rule.
pub(crate) fn own_way(job: &OwnJob) -> Result<Direction, Broken>
    requires { IfSome job.now.own (IsJudgeable job.now.inst) }
    ensures seen { IfOk result (λ way. IfSome job.now.own
        (λ sched. IsSeenSo job.now.inst.turn job.now.inst sched way)) }
    ensures broken { IfErr result (λ told. IsSomeAnd job.now.own
        (λ sched. TellsBreakBy job.now.inst.turn job.now.inst sched told)) }
{
    match &job.own {
        None => Ok(Direction::Up),
        Some(sched) => match way_of(&job.inst, sched) {
            Ok(way) => Ok(way),
            Err(broken) => Err(broken_of(&job.inst, broken)),
        },
    }
}

/// The direction of a schedule that goes this way: one that goes down may go up too.
pub(crate) fn direction_as(inst: &Instance, sched: &Schedule, way: Direction) -> Direction
    requires judgeable { IsJudgeable inst.now sched.now }
    requires goes { Goes inst.now sched.now way }
    ensures { IsDirection inst.now sched.now result }
{
    match way {
        Direction::Up => Direction::Up,
        Direction::Down => match first_break(inst, sched, Direction::Up) {
            None => Direction::Up,
            Some(_) => Direction::Down,
        },
    }
}
