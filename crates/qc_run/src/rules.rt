//! Whether cranes may follow a plan.
ghost use Rattle.std.specs.Prelude.{◌<◌, length, IfNone, IfSome};
ghost use Rattle.qc_model.specs.declared.turn.Turn.TheVariants.{Free};
ghost use Rattle.qc_model.specs.Judge.{IsJudgeable};
ghost use Rattle.qc_model.specs.OneWay.{IsAllowedBy};
ghost use Rattle.qc_model.specs.Rules.{Feasible};
ghost use Rattle.qc_run.specs.Broken.{IsBrokenBy};

use qc_model::{Break, Direction, Instance, Rule, Schedule, Turn, direction_of, first_break};

/// The first rule that the schedule breaks, but for that of one way, and where; `None` exactly where
/// the schedule is feasible.
pub fn broken_rule(inst: &Instance, sched: &Schedule) -> Option<Break>
    requires { IsJudgeable inst.now sched.now }
    ensures feasible { IfNone result (Feasible inst.now sched.now) }
    ensures broken { IfSome result (IsBrokenBy Free inst.now sched.now) }
    ensures first { IfSome result (λ b. b.first < length inst.now.tasks) }
    ensures second { IfSome result (λ b. b.second < length inst.now.tasks) }
{
    match first_break(inst, sched, Direction::Up) {
        Some(broken) => {
            if broken.rule == Rule::OneWay {
                None
            } else {
                Some(broken)
            }
        }
        None => None,
    }
}

/// The first rule for which cranes with this turn may not follow the schedule, and where: any where the schedule is to
/// go one way and goes neither, and else any but that of one way; `None` exactly where they may.
pub fn broken_by(turn: Turn, inst: &Instance, sched: &Schedule) -> Option<Break>
    requires { IsJudgeable inst.now sched.now }
    ensures allowed { IfNone result (IsAllowedBy turn inst.now sched.now) }
    ensures broken { IfSome result (IsBrokenBy turn inst.now sched.now) }
    ensures first { IfSome result (λ b. b.first < length inst.now.tasks) }
    ensures second { IfSome result (λ b. b.second < length inst.now.tasks) }
{
    match turn {
        Turn::OneWay => match direction_of(inst, sched) {
            Ok(_) => None,
            Err(broken) => Some(broken),
        },
        Turn::Free => broken_rule(inst, sched),
    }
}
