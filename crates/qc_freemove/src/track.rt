//! Waypoints in half ticks.

ghost use Rattle.std.specs.Prelude.{◌≡◌, ◌+◌, ◌*◌, ◌<◌, [], ◌∷◌, ◌++◌, length, IfOk};
ghost use Rattle.qc_freemove.specs.FreeTracks.{FreeTrackView};
ghost use Rattle.qc_freemove.specs.FreeRoom.{HasRoom};

use qc_num::OutOfMemory;
use std::alloc::Global;
use std::marker::Model;

/// Where a crane stands at a half tick.
#[derive(Clone, Copy, PartialEq, Eq)]
pub struct HalfPoint {
    /// Half ticks from the start of the schedule.
    pub at: u64,
    /// Twice the bay times the ticks of travel per bay. It may lie below 0.
    pub place: i64,
}

/// The points of a crane in order of time. All memory is taken by `new`.
#[derive(Drop)]
pub struct FreeTrack {
    points: Vec<HalfPoint>,
    tasks: u16,
}

impl Model for FreeTrack {
    ghost Value = { FreeTrackView };

    ghost view = { λ track. record { points = track.points.items; tasks = track.tasks } };

    ghost invariant = { HasRoom };
}

impl FreeTrack {
    /// No point, and room for those of every crane of a schedule of that many tasks.
    pub fn new(alloc: Global, tasks: u16) -> Result<FreeTrack, OutOfMemory>
        ensures { IfOk result (λ track. track ≡ record { points = []; tasks = tasks }) }
    {
        let room = 4 * usize::from(tasks) + 36;
        let points = Vec::with_capacity(alloc, room).map_err(OutOfMemory::from)?;
        Ok(FreeTrack { points, tasks })
    }

    /// The points.
    pub fn points(&self) -> &[HalfPoint]
        ensures { result.now ≡ self.now.points }
    {
        self.points.as_slice()
    }

    /// Takes all points away.
    pub(crate) fn clear(&mut self)
        ensures { self.new ≡ record self.old { points = [] } }
    {
        self.points.clear();
    }

    /// One point more.
    pub(crate) fn push(&mut self, point: HalfPoint)
        requires { length self.old.points < 4 * self.old.tasks + 36 }
        ensures { self.new ≡ record self.old { points = self.old.points ++ point ∷ [] } }
    {
        self.points.push_reserved(point);
    }
}
