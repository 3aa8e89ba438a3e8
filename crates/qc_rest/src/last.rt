//! When the old order is over.

ghost use Rattle.std.specs.Prelude.{◌≡◌, ℕ, ◌+◌, ◌<◌, ◌≤◌, ◌↔◌, length, slice_index};
ghost use Rattle.qc_model.specs.Instance.{ticks_of};
ghost use Rattle.qc_model.specs.Numbers.{most_work};
ghost use Rattle.qc_rest.specs.Passed.{most_base};
ghost use Rattle.qc_rest.specs.Passing.{StartBy};
ghost use Rattle.qc_rest.specs.Progress.{IsLeft};
ghost use Rattle.qc_rest.specs.Lasting.{IsLastOfAll};

use crate::remains::is_left;
use qc_dispatch::Dispatch;
use qc_num::Tick;

/// When a task that is left is over, if the old order goes on; 0 where it has begun.
fn gone_end(work: &Dispatch, goes: &[Tick], j: u16) -> Tick
    requires count { length goes.now ≡ length work.now.inst.tasks }
    requires soon { StartBy goes.now most_base }
    requires inside { j < length work.now.inst.tasks }
    ensures by { (moment : ℕ) → (result ≤ moment) ↔ (IsLeft work.now j → slice_index goes.now j + ticks_of work.now.inst j ≤ moment) }
    ensures bound { result ≤ most_base + most_work }
{
    if is_left(work, j) {
        goes[j as usize] + work.instance().task(j).ticks
    } else {
        0
    }
}

/// When the old order is over if it goes on, now at the earliest.
pub(crate) fn last_gone(work: &Dispatch, goes: &[Tick]) -> Tick
    requires count { length goes.now ≡ length work.now.inst.tasks }
    requires soon { StartBy goes.now most_base }
    ensures { IsLastOfAll work.now (slice_index goes.now) result }
{
    let mut last = work.now();
    for j in 0..work.instance().task_count() {
        last = last.max(gone_end(work, goes, j));
    }
    last
}
