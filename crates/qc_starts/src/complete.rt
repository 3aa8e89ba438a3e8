//! Whether all tasks have a crane, and all apart pairs an order.

ghost use Rattle.std.specs.Prelude.{◌↔◌, IsTrue};
ghost use Rattle.qc_starts.specs.Seen.{AreAssigned, AreSettled};

use qc_dist::Decisions;

/// Whether all tasks have a crane.
pub(crate) fn are_assigned(decisions: &Decisions) -> bool
    ensures { IsTrue result ↔ AreAssigned decisions.now.inst decisions.now.decisions }
{
    for task in 0..decisions.instance().task_count() {
        if decisions.crane_of(task).is_none() {
            return false;
        }
    }
    true
}

/// Whether all apart pairs are settled.
pub(crate) fn are_settled(decisions: &Decisions) -> bool
    ensures { IsTrue result ↔ AreSettled decisions.now.inst decisions.now.decisions }
{
    for pair in decisions.instance().apart() {
        if !decisions.settled(pair.first, pair.second) {
            return false;
        }
    }
    true
}
