//! Waypoints, as they are kept.

ghost use Rattle.std.specs.Prelude.{◌≡◌, ◌+◌, ◌*◌, ◌<◌, [], ◌∷◌, ◌++◌, length, IfOk};
ghost use Rattle.qc_motion.specs.Tracks.{TrackView};
ghost use Rattle.qc_motion.specs.Room.{HasRoom};

use qc_num::{OutOfMemory, Tick};
use std::alloc::Global;
use std::marker::Model;

/// Where a crane stands at a tick.
#[derive(Clone, Copy, PartialEq, Eq)]
pub struct Waypoint {
    pub at: Tick,
    /// The bay times the ticks of travel per bay. It may lie below 0.
    pub place: i64,
}

/// The waypoints of a crane in order of time. All memory is taken by `new`.
#[derive(Drop)]
pub struct Track {
    points: Vec<Waypoint>,
    tasks: u16,
}

impl Model for Track {
    ghost Value = { TrackView };

    ghost view = { λ track. record { points = track.points.items; tasks = track.tasks } };

    ghost invariant = { HasRoom };
}

impl Track {
    /// No waypoint, and room for those of every crane of a schedule of that many tasks.
    pub fn new(alloc: Global, tasks: u16) -> Result<Track, OutOfMemory>
        ensures { IfOk result (λ track. track ≡ record { points = []; tasks = tasks }) }
    {
        let room = 2 * usize::from(tasks) + 19;
        let points = Vec::with_capacity(alloc, room).map_err(OutOfMemory::from)?;
        Ok(Track { points, tasks })
    }

    /// The waypoints.
    pub fn points(&self) -> &[Waypoint]
        ensures { result.now ≡ self.now.points }
    {
        self.points.as_slice()
    }

    /// Takes all waypoints away.
    pub(crate) fn clear(&mut self)
        ensures { self.new ≡ record self.old { points = [] } }
    {
        self.points.clear();
    }

    /// One waypoint more.
    pub(crate) fn push(&mut self, point: Waypoint)
        requires { length self.old.points < 2 * self.old.tasks + 19 }
        ensures { self.new ≡ record self.old { points = self.old.points ++ point ∷ [] } }
    {
        self.points.push_reserved(point);
    }
}
