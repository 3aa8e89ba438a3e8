//! Writing the crane lines of a schedule.
ghost use Rattle.std.specs.Prelude.{◌≡◌, ◌≤◌, length};
ghost use Rattle.qc_model.specs.Judge.{Goes, IsJudgeable};
ghost use Rattle.qc_gantt.specs.TracksText.{WritesTracks};

use qc_io::{Sink, WriteFault};
use qc_model::{Direction, Instance, Schedule};
use qc_motion::{Track, put_crane, waypoints};

/// Writes for each crane in order the line `crane NAME` with its waypoints, each as a space, the tick,
/// `:` and the place in bays times `travel`: where it stands at tick 0, at the end of the schedule, and
/// wherever it starts, stops or turns between. It takes no memory: the track, made for as many tasks, is
/// written over by each crane. After `WriteFault` a part of these lines was written, from their front.
pub fn write_tracks<K: Sink>(
    inst: &Instance,
    sched: &Schedule,
    way: Direction,
    track: &mut Track,
    sink: &mut K,
) -> Result<(), WriteFault>
    requires judgeable { IsJudgeable inst.now sched.now }
    requires goes { Goes inst.now sched.now way }
    requires room { length inst.now.tasks ≤ track.old.tasks }
    ensures writes { WritesTracks (K.view sink.old) (K.view sink.new)
        inst.now sched.now way result }
    ensures room { track.new.tasks ≡ track.old.tasks }
{
    for (number, crane) in inst.cranes().iter().enumerate() {
        waypoints(inst, sched, way, number as u16, track);
        put_crane(&crane.name, track.points(), sink)?;
    }
    Ok(())
}
