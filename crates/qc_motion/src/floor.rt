//! The bay below which a crane never goes.

ghost use Rattle.std.specs.Prelude.{◌≤◌, ◌<◌, ◌≤ℤ◌, ℕ, length};
ghost use Rattle.qc_model.specs.Instance.{crane as crane_at};
ghost use Rattle.qc_model.specs.Limits.{IsNearRail};
ghost use Rattle.qc_model.specs.Motion.{IsFloor, FloorBay, bay_behind};

use qc_model::Judge;
use qc_num::Bay;

/// The lowest bay for which the crane must make room so that a berth, its own or of a higher crane, is free.
fn floor_of_berths(judge: &Judge, crane: u16) -> Bay
    requires { crane < length judge.now.inst.cranes }
    ensures is { FloorBay judge.now.inst judge.now.sched crane result }
    ensures least { (w : ℕ) → w < length judge.now.inst.cranes → crane ≤ w
        → result ≤ℤ bay_behind judge.now.inst w (crane_at judge.now.inst w).bay crane }
    ensures near { IsNearRail result }
{
    let mut floor = judge.bay_behind(crane, judge.post(crane).bay, crane);
    for higher in crane..judge.cranes() {
        floor = floor.min(judge.bay_behind(higher, judge.post(higher).bay, crane));
    }
    floor
}

/// The bay below which the crane never goes, whichever way a feasible schedule goes.
pub fn floor_of(judge: &Judge, crane: u16) -> Bay
    requires { crane < length judge.now.inst.cranes }
    ensures floor { IsFloor judge.now.inst judge.now.sched crane result }
    ensures near { IsNearRail result }
{
    let mut floor = floor_of_berths(judge, crane);
    for task in 0..judge.tasks() {
        let work = judge.work(task);
        if crane <= work.crane {
            floor = floor.min(judge.bay_behind(work.crane, work.bay, crane));
        }
    }
    floor
}
