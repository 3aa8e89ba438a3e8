//! Bays and ticks between places, and the distance of two cranes.

ghost use Rattle.std.specs.Prelude.{◌≡◌, ◌*◌, ◌<◌, ◌≤◌, pos, ◌≤ℤ◌, length};
ghost use Rattle.qc_model.specs.Numbers.{most_bays, most_distance};
ghost use Rattle.qc_model.specs.Bays.{bays_up, bays_between};
ghost use Rattle.qc_model.specs.Instance.{IsOnRail};
ghost use Rattle.qc_model.specs.Limits.{IsNearRail, IsPlaceNear};
ghost use Rattle.qc_model.specs.Motion.{scaled};
ghost use Rattle.qc_model.specs.Ticks.{distance};

use crate::Instance;
use qc_num::{Bay, Tick};

/// How many bays `to` lies above `from`, and 0 where it doesn't.
pub fn bays_up(from: Bay, to: Bay) -> Tick
    ensures { result ≡ bays_up from to }
{
    if from < to {
        Tick::from(from.abs_diff(to))
    } else {
        0
    }
}

/// How many bays lie between two places.
pub fn bays_between(one: Bay, other: Bay) -> Tick
    ensures { result ≡ bays_between one other }
{
    Tick::from(one.abs_diff(other))
}

/// The ticks of travel over so many bays.
pub fn travel_over(inst: &Instance, bays: Tick) -> Tick
    requires { bays ≤ most_bays }
    ensures ticks { result ≡ inst.now.travel * bays }
    ensures bound { result ≤ most_distance }
{
    inst.travel() * bays
}

/// A bay as a place: times the ticks of travel per bay.
pub(crate) fn place_of(inst: &Instance, bay: Bay) -> i64
    requires { IsNearRail bay }
    ensures place { result ≡ scaled inst.now 1 bay }
    ensures near { IsPlaceNear result }
{
    inst.travel() as i64 * i64::from(bay)
}

/// How many bays two cranes are apart at least whose numbers differ by so much.
pub fn gap_over(inst: &Instance, cranes: u16) -> Bay
    requires { cranes < length inst.now.cranes }
    ensures bays { result ≡ pos (inst.now.gap * cranes) }
    ensures bound { result ≤ℤ pos 16000 }
{
    inst.gap() * Bay::from(cranes)
}

/// The ticks by which crane `v` at bay `x` and crane `w` at bay `y` keep clear of each other.
pub fn distance(inst: &Instance, v: u16, x: Bay, w: u16, y: Bay) -> Tick
    requires first_crane { v < length inst.now.cranes }
    requires second_crane { w < length inst.now.cranes }
    requires first_bay { IsOnRail x }
    requires second_bay { IsOnRail y }
    ensures ticks { result ≡ distance inst.now v x w y }
    ensures bound { result ≤ most_distance }
{
    let bays = if v < w {
        bays_up(y, x + gap_over(inst, w - v))
    } else if w < v {
        bays_up(x, y + gap_over(inst, v - w))
    } else {
        0
    };
    travel_over(inst, bays)
}
