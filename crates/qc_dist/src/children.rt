//! The children of a branching.
ghost use Rattle.qc_dist.specs.Children.{IsNextChild};
ghost use Rattle.qc_model.specs.declared.decision.Decision.TheVariants.{Assign, Order};

use qc_model::{Decision, Instance};

/// The child that puts the task on the next crane.
fn next_crane(inst: &Instance, task: u16, crane: u16) -> Option<Decision>
    ensures { IsNextChild inst.now (Assign task crane) result }
{
    if crane as usize + 1 < inst.cranes().len() {
        Some(Decision::Assign(task, crane + 1))
    } else {
        None
    }
}

/// The child with the pair in the other order: the one with the lower task first comes first.
fn turned(inst: &Instance, first: u16, second: u16) -> Option<Decision>
    ensures { IsNextChild inst.now (Order first second) result }
{
    if first < second {
        Some(Decision::Order(second, first))
    } else {
        None
    }
}

/// The child that follows this one under its branching; `None` where it is the last. A task has a child
/// for each crane, in order, and an apart pair one for each order, the lower task first before the other.
pub fn next_child(inst: &Instance, decision: Decision) -> Option<Decision>
    ensures { IsNextChild inst.now decision result }
{
    match decision {
        Decision::Assign(task, crane) => next_crane(inst, task, crane),
        Decision::Order(first, second) => turned(inst, first, second),
    }
}
