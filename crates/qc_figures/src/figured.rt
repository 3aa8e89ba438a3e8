//! What figures are told of, and the ticks of a crane's way.

ghost use Rattle.std.specs.Prelude.{◌≡◌, ◌*◌, ◌≤◌, ◌<◌, length, AllPairs};
ghost use Rattle.qc_figures.specs.Figures.{clipped, done_at, figures, leg, ready_at, time_moving, way_of};
ghost use Rattle.qc_figures.specs.Motions.{parts};
ghost use Rattle.qc_figures.specs.Views.{IsReady, view_of};
ghost use Rattle.qc_model.specs.declared.limits.TheConstants.{MOST_END};
ghost use Rattle.qc_motion.specs.declared.track.Waypoint.{Waypoint};

use crate::crane::Figures;
use crate::tracks::Tracks;
use qc_model::{Direction, Instance, Schedule, ends};
use qc_motion::Waypoint;
use qc_num::Tick;
use qc_stow::Row;

/// What figures are told of: an instance and its moves, a schedule, the way in which it goes where it goes one,
/// and the waypoints of each crane.
#[derive(Clone, Copy)]
pub struct Figured<'a> {
    pub inst: &'a Instance,
    pub rows: &'a [Row],
    pub sched: &'a Schedule,
    pub way: Option<Direction>,
    pub tracks: &'a Tracks,
}

/// In how many parts a tick is divided by the moments of waypoints.
pub fn parts(way: Option<Direction>) -> Tick
    ensures parts { result ≡ parts way }
    ensures some { 1 ≤ result }
    ensures few { result ≤ 2 }
{
    match way {
        Some(_) => 1,
        None => 2,
    }
}

/// A moment, or the nearest one between two.
fn clipped(from: Tick, till: Tick, at: Tick) -> Tick
    ensures { result ≡ clipped from till at }
{
    at.max(from).min(till)
}

/// How long, between two moments, a crane goes that comes from one waypoint to the next.
fn leg(from: Tick, till: Tick, before: &Waypoint, after: &Waypoint) -> Tick
    ensures { result ≡ leg from till before.now after.now }
{
    if before.place.abs_diff(after.place) == 0 {
        return 0;
    }
    clipped(from, till, after.at).saturating_sub(clipped(from, till, before.at))
}

/// How long, between two moments, a crane with these waypoints goes.
pub(crate) fn moving(points: &[Waypoint], from: Tick, till: Tick) -> Tick
    requires rising { AllPairs (λ (u : Waypoint) (v : Waypoint). u.at < v.at) points.now }
    requires soon { till ≤ 2 * MOST_END }
    ensures { result ≡ time_moving points.now from till }
{
    let mut time = 0;
    for number in 1..points.len() {
        time += leg(from, till, &points[number - 1], &points[number]);
    }
    time
}

impl Figured<'_> {
    /// The ticks in which a crane goes, from one tick to another.
    fn way_of(&self, crane: u16, from: Tick, till: Tick) -> Tick
        requires ready { IsReady (view_of self.now) }
        requires crane { crane < length (view_of self.now).inst.cranes }
        requires from { from ≡ ready_at (view_of self.now) crane }
        requires till { till ≡ done_at (view_of self.now) crane }
        requires early { from ≤ MOST_END }
        requires soon { till ≤ MOST_END }
        ensures { result ≡ way_of (view_of self.now) crane }
    {
        let parts = parts(self.way);
        moving(self.tracks.points(crane), parts * from, parts * till) / parts
    }
}

/// The figures of a crane.
pub fn figures_of(of: &Figured<'_>, crane: u16) -> Figures
    requires ready { IsReady (view_of of.now) }
    requires crane { crane < length (view_of of.now).inst.cranes }
    ensures { result ≡ figures (view_of of.now) crane }
{
    let tally = of.tally(crane);
    let end = ends(of.inst, of.sched);
    let ready = of.inst.crane(crane).ready.min(end);
    let till = tally.end.max(ready);
    let moving = of.way_of(crane, ready, till);
    Figures {
        tasks: tally.tasks,
        moves: tally.moves,
        not_ready: ready,
        work: tally.work,
        moving,
        waiting: (till - ready)
            .saturating_sub(tally.work)
            .saturating_sub(moving),
        idle: end.saturating_sub(till),
        end: tally.end,
        share: 1000 * tally.work / of.inst.work().max(1),
    }
}
