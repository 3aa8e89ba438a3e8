//! The points of one crane.

ghost use Rattle.std.specs.Prelude.{◌≡◌, ◌*◌, ◌≤◌, ◌<◌, ◌↔◌, IsTrue, length};
ghost use Rattle.qc_model.specs.Judge.{IsJudgeable};
ghost use Rattle.qc_model.specs.Numbers.{most_end};
ghost use Rattle.qc_model.specs.Rules.{Feasible};
ghost use Rattle.qc_freemove.specs.FreeMotion.{IsFreeSafe};
ghost use Rattle.qc_freemove.specs.FreeSweep.{IsKept, last_half, place_at};
ghost use Rattle.qc_freemove.specs.HalfLines.{MovesBetween};
ghost use Rattle.qc_freemove.specs.HalfPoints.{AreHalfPoints};

use crate::sweep::Sweep;
use crate::{FreeTrack, HalfPoint};
use qc_model::{Instance, Schedule, ends};

impl Sweep<'_> {
    /// Whether a half tick before the end has a point.
    fn is_kept(&self, at: u64) -> bool
        requires { at ≤ 2 * most_end }
        ensures { IsTrue result ↔ IsKept self.now at }
    {
        at == 0 || self.turns(at)
    }

    /// The point at a half tick.
    fn point(&self, at: u64) -> HalfPoint
        requires { at ≤ last_half }
        ensures { result ≡ record { at = at; place = place_at self.now at } }
    {
        HalfPoint {
            at,
            place: self.place(at),
        }
    }
}

/// The points of a crane in a feasible schedule: where it stands at moment 0, at the end of the schedule, and
/// at each half tick between at which it starts, stops or turns. They take no memory. From each to
/// the next the crane goes evenly, and the motion is safe: all cranes keep their order and the margin at every
/// moment.
pub fn free_waypoints(inst: &Instance, sched: &Schedule, crane: u16, track: &mut FreeTrack)
    requires judgeable { IsJudgeable inst.now sched.now }
    requires feasible { Feasible inst.now sched.now }
    requires range { crane < length inst.now.cranes }
    requires room { length inst.now.tasks ≤ track.old.tasks }
    ensures points { AreHalfPoints inst.now sched.now crane track.new.points }
    ensures between { MovesBetween inst.now sched.now crane track.new.points }
    ensures safe { IsFreeSafe inst.now sched.now }
    ensures room { track.new.tasks ≡ track.old.tasks }
{
    let sweep = Sweep::new(inst, sched, crane);
    let end = 2 * ends(inst, sched);
    let mut at = 0;
    track.clear();
    while at < end {
        if sweep.is_kept(at) {
            track.push(sweep.point(at));
        }
        at = sweep.next_change(at, end);
    }
    track.push(sweep.point(end));
}
