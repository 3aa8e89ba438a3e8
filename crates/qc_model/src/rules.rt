//! Which rule a schedule breaks first, and its direction.

ghost use Rattle.std.specs.Prelude.{◌≡◌, ◌<◌, ◌≤◌, ◌↔◌, length, IfErr, IfNone, IfOk, IfSome, IsNone, IsOk};
ghost use Rattle.qc_model.specs.declared.rules.Rule.TheVariants.{OneWay};
ghost use Rattle.qc_model.specs.Rules.{Feasible};
ghost use Rattle.qc_model.specs.OneWay.{GoesOneWay};
ghost use Rattle.qc_model.specs.Seen.{seen, seen_schedule};
ghost use Rattle.qc_model.specs.Motion.{IsSafe};
ghost use Rattle.qc_model.specs.Judge.{IsJudgeable, Goes, IsDirection, IsFirstBreak, rule_text};

use crate::judge::Judge;
use crate::{Direction, Instance, Pair, Schedule};

/// The rules of a schedule, in the order in which they are judged: those of a feasible
/// schedule after Kim and Park (2004), and that of a one-way schedule after Bierwirth and
/// Meisel (2009).
#[derive(Clone, Copy, PartialEq, Eq)]
pub enum Rule {
    /// A task lies within the reach of its crane.
    Reach,
    /// A task is held back no longer, and its crane is ready and has come from its start bay.
    Ready,
    /// A crane has the time to go from one of its tasks to the next.
    Travel,
    /// A task starts after those that must end before.
    Before,
    /// Two apart tasks don't run at the same time.
    Apart,
    /// Tasks of two cranes that would come too near keep clear of each other in time.
    Margin,
    /// A task keeps clear of the cranes that wait at their start bays.
    Berth,
    /// All cranes move one way.
    OneWay,
}

/// A rule that a schedule breaks, and where.
#[derive(Clone, Copy, PartialEq, Eq)]
pub struct Break {
    pub rule: Rule,
    /// The task, or the lower of the two.
    pub first: u16,
    /// The higher of the two tasks; the same task where the rule is `Reach`, `Ready` or `Berth`.
    pub second: u16,
}

impl Rule {
    /// How the rule is printed.
    pub fn text(self) -> &'static [u8]
        ensures { result.now ≡ rule_text self }
    {
        match self {
            Rule::Reach => b"Reach",
            Rule::Ready => b"Ready",
            Rule::Travel => b"Travel",
            Rule::Before => b"Before",
            Rule::Apart => b"Apart",
            Rule::Margin => b"Margin",
            Rule::Berth => b"Berth",
            Rule::OneWay => b"OneWay",
        }
    }
}

/// The rules in the order in which they are judged.
const RULES: [Rule; 8] = [
    Rule::Reach,
    Rule::Ready,
    Rule::Travel,
    Rule::Before,
    Rule::Apart,
    Rule::Margin,
    Rule::Berth,
    Rule::OneWay,
];

/// The first rule that the schedule breaks if it is to go this way, and the first task or
/// tasks at which it does; `None` exactly where the schedule is feasible and goes this way.
/// Downward the rules are judged from the other end of the ship; tasks keep their numbers.
/// Where there is no break, the motion of the schedule is safe at every moment.
pub fn first_break(inst: &Instance, sched: &Schedule, way: Direction) -> Option<Break>
    requires { IsJudgeable inst.now sched.now }
    ensures goes { IsNone result ↔ Goes inst.now sched.now way }
    ensures safe { IfNone result (IsSafe inst.now sched.now way) }
    ensures first { IfSome result
        (λ b. IsFirstBreak (seen inst.now way) (seen_schedule inst.now sched.now way) b) }
    ensures feasible { IfSome result (λ b. b.rule ≡ OneWay
        → Feasible (seen inst.now way) (seen_schedule inst.now sched.now way)) }
    ensures range { IfSome result
        (λ b. (b.first ≤ b.second) × (b.second < length inst.now.tasks)) }
{
    let judge = Judge::new(inst, sched, way);
    for rule in RULES {
        if let Some(Pair { first, second }) = judge.first_fault(rule) {
            return Some(Break {
                rule,
                first,
                second,
            });
        }
    }
    None
}

/// The direction of a schedule: up where it is feasible and goes up, else down where it is
/// feasible and goes down, else the first break on the way up. The motion of a schedule that has
/// a direction is safe at every moment.
pub fn direction_of(inst: &Instance, sched: &Schedule) -> Result<Direction, Break>
    requires { IsJudgeable inst.now sched.now }
    ensures one_way { IsOk result ↔ GoesOneWay inst.now sched.now }
    ensures direction { IfOk result (λ way. IsDirection inst.now sched.now way) }
    ensures safe { IfOk result (λ way. IsSafe inst.now sched.now way) }
    ensures first { IfErr result (λ b. IsFirstBreak inst.now sched.now b) }
    ensures range { IfErr result
        (λ b. (b.first ≤ b.second) × (b.second < length inst.now.tasks)) }
{
    let Some(broken) = first_break(inst, sched, Direction::Up) else {
        return Ok(Direction::Up);
    };
    match first_break(inst, sched, Direction::Down) {
        None => Ok(Direction::Down),
        Some(_) => Err(broken),
    }
}
