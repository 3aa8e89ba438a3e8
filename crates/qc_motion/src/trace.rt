//! The waypoints of a crane in a schedule that goes one way.

ghost use Rattle.std.specs.Prelude.{◌≡◌, ◌≤◌, ◌<◌, length};
ghost use Rattle.qc_model.specs.Judge.{Goes, IsJudgeable};
ghost use Rattle.qc_model.specs.Limits.{IsPlaceNear};
ghost use Rattle.qc_model.specs.Motion.{seen_place};
ghost use Rattle.qc_motion.specs.Waypoints.{AreWaypoints, MovesBetween};

use crate::sweep::Sweep;
use crate::{Track, Waypoint};
use qc_model::{Direction, Instance, Schedule, ends, seen_place};
use qc_num::Tick;

/// A waypoint from a place as it is seen with a direction.
fn waypoint(inst: &Instance, way: Direction, at: Tick, place: i64) -> Waypoint
    requires { IsPlaceNear place }
    ensures { result ≡ record { at = at; place = seen_place inst.now way 1 place } }
{
    Waypoint {
        at,
        place: seen_place(inst, way, place),
    }
}

/// The waypoints of a crane in a schedule that goes this way: where it stands at tick 0, at the end of
/// the schedule, and at each tick between at which it starts, stops or turns. They take no memory. Each
/// step leads from one of them to the next.
pub fn waypoints(inst: &Instance, sched: &Schedule, way: Direction, crane: u16, track: &mut Track)
    requires judgeable { IsJudgeable inst.now sched.now }
    requires goes { Goes inst.now sched.now way }
    requires range { crane < length inst.now.cranes }
    requires room { length inst.now.tasks ≤ track.old.tasks }
    ensures waypoints { AreWaypoints inst.now sched.now way crane track.new.points }
    ensures between { MovesBetween inst.now sched.now way crane track.new.points }
    ensures room { track.new.tasks ≡ track.old.tasks }
{
    let sweep = Sweep::new(inst, sched, way, crane);
    let end = ends(inst, sched);
    let mut at = 0;
    let mut place = sweep.place(at);
    track.clear();
    track.push(waypoint(inst, way, at, place));
    while at < end {
        at = sweep.run_end(at, place, end);
        place = sweep.place(at);
        track.push(waypoint(inst, way, at, place));
    }
}
