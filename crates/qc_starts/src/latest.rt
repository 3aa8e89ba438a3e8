//! The task that ends last.

ghost use Rattle.std.specs.Prelude.{◌≡◌, ℕ, ◌*◌, ◌<◌, ◌≤◌, Some, if◌then◌else◌, length, nat_lt};
ghost use Rattle.qc_model.specs.declared.limits.TheConstants.{MOST_START};
ghost use Rattle.qc_starts.specs.Found.{IsLast, end_in};
ghost use Rattle.qc_starts.specs.Values.{start_at};

use crate::network::Network;
use crate::noted::Noted;
use qc_num::Tick;

/// The task that ends last of some, and when.
#[derive(Clone, Copy)]
pub(crate) struct Last {
    pub(crate) task: Option<u16>,
    /// 0 where there is no task.
    pub(crate) end: Tick,
}

/// When a task ends by its start.
fn end_in(network: &Network, values: &Noted, task: u16) -> Tick
    requires count { length values.now.cells ≡ 2 * length network.now.inst.tasks }
    requires task { task < length network.now.inst.tasks }
    requires soon { start_at values.now.cells task ≤ MOST_START }
    ensures end { result ≡ end_in network.now.inst values.now.cells task }
    ensures some { 1 ≤ result }
{
    values.start(task) + network.instance().task(task).ticks
}

/// The one that ends last of a task and those before it.
fn later(last: Last, task: u16, end: Tick) -> Last
    ensures { result ≡ (if nat_lt last.end end
        then record { task = Some task; end = end }
        else last) }
{
    if last.end < end {
        Last {
            task: Some(task),
            end,
        }
    } else {
        last
    }
}

/// The task that ends last.
pub(crate) fn latest(network: &Network, values: &Noted) -> Last
    requires count { length values.now.cells ≡ 2 * length network.now.inst.tasks }
    requires soon { (j : ℕ) → j < length network.now.inst.tasks
        → start_at values.now.cells j ≤ MOST_START }
    ensures { IsLast network.now.inst values.now.cells (length network.now.inst.tasks) result }
{
    let mut last = Last { task: None, end: 0 };
    for task in 0..network.task_count() {
        last = later(last, task, end_in(network, values, task));
    }
    last
}
