//! The waypoints of all cranes.

ghost use Rattle.std.specs.Prelude.{◌≡◌, ◌<◌, [], length, map, slice_index_or, IfOk, None, Some};
ghost use Rattle.qc_figures.specs.Motions.{ArePaths, IsWay, of_half};
ghost use Rattle.qc_model.specs.Judge.{IsDirection, IsJudgeable};
ghost use Rattle.qc_model.specs.Rules.{Feasible};

use qc_freemove::{FreeTrack, HalfPoint, free_waypoints};
use qc_model::{Direction, Instance, Schedule};
use qc_motion::{Track, Waypoint, waypoints};
use qc_num::OutOfMemory;
use std::alloc::Global;
use std::marker::Model;

/// The waypoints of a crane, in order of time.
#[derive(Drop)]
pub(crate) struct Path {
    points: Vec<Waypoint>,
}

impl Model for Path {
    ghost use Rattle.std.specs.Prelude.{List};
    ghost use Rattle.qc_motion.specs.declared.track.Waypoint.{Waypoint};

    ghost Value = { List Waypoint };

    ghost view = { λ path. path.points.items };
}

impl Path {
    fn of(alloc: Global, points: &[Waypoint]) -> Result<Path, OutOfMemory>
        ensures { IfOk result (λ path. path ≡ points.now) }
    {
        let points = Vec::from_slice(alloc, points)?;
        Ok(Path { points })
    }

    /// The points of a crane that goes to and fro.
    fn of_halves(alloc: Global, halves: &[HalfPoint]) -> Result<Path, OutOfMemory>
        ensures { IfOk result (λ path. path ≡ map of_half halves.now) }
    {
        let mut points = Vec::new(alloc);
        for half in halves {
            points.push(Waypoint {
                at: half.at,
                place: half.place,
            })?;
        }
        Ok(Path { points })
    }

    fn points(&self) -> &[Waypoint]
        ensures { result.now ≡ self.now }
    {
        self.points.as_slice()
    }
}

/// The waypoints of each crane, in order along the rail.
#[derive(Drop)]
pub struct Tracks {
    paths: Vec<Path>,
}

impl Model for Tracks {
    ghost use Rattle.std.specs.Prelude.{List};
    ghost use Rattle.qc_motion.specs.declared.track.Waypoint.{Waypoint};

    ghost Value = { List (List Waypoint) };

    ghost view = { λ tracks. tracks.paths.items };
}

impl Tracks {
    /// The waypoints of a crane, by its number from 0.
    pub fn points(&self, crane: u16) -> &[Waypoint]
        requires { crane < length self.now }
        ensures { result.now ≡ slice_index_or self.now crane [] }
    {
        self.paths[crane as usize].points()
    }
}

/// The waypoints of each crane of a schedule that goes this way.
fn one_way_tracks(
    alloc: Global,
    inst: &Instance,
    sched: &Schedule,
    way: Direction,
) -> Result<Tracks, OutOfMemory>
    requires judgeable { IsJudgeable inst.now sched.now }
    requires goes { IsDirection inst.now sched.now way }
    ensures paths { IfOk result (ArePaths inst.now sched.now (Some way)) }
    ensures all { IfOk result (λ tracks. length tracks ≡ length inst.now.cranes) }
{
    let mut track = Track::new(alloc, inst.task_count())?;
    let mut paths = Vec::new(alloc);
    for crane in 0..inst.crane_count() {
        waypoints(inst, sched, way, crane, &mut track);
        paths.push(Path::of(alloc, track.points())?)?;
    }
    Ok(Tracks { paths })
}

/// The waypoints of each crane of a feasible schedule that goes to and fro.
fn free_tracks(alloc: Global, inst: &Instance, sched: &Schedule) -> Result<Tracks, OutOfMemory>
    requires judgeable { IsJudgeable inst.now sched.now }
    requires feasible { Feasible inst.now sched.now }
    ensures paths { IfOk result (ArePaths inst.now sched.now None) }
    ensures all { IfOk result (λ tracks. length tracks ≡ length inst.now.cranes) }
{
    let mut track = FreeTrack::new(alloc, inst.task_count())?;
    let mut paths = Vec::new(alloc);
    for crane in 0..inst.crane_count() {
        free_waypoints(inst, sched, crane, &mut track);
        paths.push(Path::of_halves(alloc, track.points())?)?;
    }
    Ok(Tracks { paths })
}

/// The waypoints of each crane of a feasible schedule: in ticks and in bays times travel where it goes one way,
/// and in halves of both where it goes to and fro.
pub fn tracks_of(
    alloc: Global,
    inst: &Instance,
    sched: &Schedule,
    way: Option<Direction>,
) -> Result<Tracks, OutOfMemory>
    requires judgeable { IsJudgeable inst.now sched.now }
    requires feasible { Feasible inst.now sched.now }
    requires way { IsWay inst.now sched.now way }
    ensures paths { IfOk result (ArePaths inst.now sched.now way) }
    ensures all { IfOk result (λ tracks. length tracks ≡ length inst.now.cranes) }
{
    match way {
        Some(way) => one_way_tracks(alloc, inst, sched, way),
        None => free_tracks(alloc, inst, sched),
    }
}
