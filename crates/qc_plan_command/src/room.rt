//! Where the waypoints of a plan's cranes are put, and how its cranes go.
ghost use Rattle.std.specs.Prelude.{length, IfOk};
ghost use Rattle.qc_model.specs.Instance.{Valid};
ghost use Rattle.qc_model.specs.Judge.{IsJudgeable};
ghost use Rattle.qc_plan_command.specs.Found.{MovesSafely};
ghost use Rattle.qc_plan_command.specs.Reports.{CanBeMoved};
ghost use Rattle.qc_plan_command.specs.Rooms.{IsRoom};
ghost use Rattle.qc_starts.specs.Tight.{IsAllowedSo};

use crate::answer::Motion;
use crate::way::direction_as;
use qc_freemove::FreeTrack;
use qc_model::{Direction, Instance, Schedule, Turn};
use qc_motion::Track;
use qc_num::OutOfMemory;
use std::alloc::Global;

/// Where the waypoints of one crane after the other are put, by the way in which cranes may go.
#[derive(Drop)]
pub(crate) enum TrackBuffer {
    OneWay(Track),
    Free(FreeTrack),
}

/// Room for the waypoints of each crane of a schedule of so many tasks.
fn room_of(alloc: Global, turn: Turn, tasks: u16) -> Result<TrackBuffer, OutOfMemory>
    ensures { IfOk result (IsRoom turn tasks) }
{
    match turn {
        Turn::OneWay => {
            let track = Track::new(alloc, tasks)?;
            Ok(TrackBuffer::OneWay(track))
        }
        Turn::Free => {
            let track = FreeTrack::new(alloc, tasks)?;
            Ok(TrackBuffer::Free(track))
        }
    }
}

/// Room for the waypoints of each crane of a schedule of the instance.
pub(crate) fn room_for(alloc: Global, inst: &Instance) -> Result<TrackBuffer, OutOfMemory>
    ensures { IfOk result (IsRoom inst.now.turn (length inst.now.tasks)) }
{
    room_of(alloc, inst.turn(), inst.task_count())
}

/// How the cranes of a schedule go that they may follow as it is seen that way.
pub(crate) fn motion_of(
    inst: &Instance,
    sched: &Schedule,
    way: Direction,
    room: TrackBuffer,
) -> Motion
    requires valid { Valid inst.now }
    requires judgeable { IsJudgeable inst.now sched.now }
    requires goes { IsAllowedSo inst.now.turn inst.now sched.now way }
    requires room { IsRoom inst.now.turn (length inst.now.tasks) room }
    ensures safe { MovesSafely inst.now.turn inst.now sched.now result }
    ensures ready { CanBeMoved inst.now sched.now result }
{
    match room {
        TrackBuffer::OneWay(track) => {
            let direction = direction_as(inst, sched, way);
            Motion::OneWay { direction, track }
        }
        TrackBuffer::Free(track) => Motion::Free { track },
    }
}
