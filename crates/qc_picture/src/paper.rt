//! What is drawn, and where hatches, ticks and waypoints stand on its paper.

ghost use Rattle.std.specs.Prelude.{◌≡◌};
ghost use Rattle.qc_figures.specs.Views.{IsReady, view_of};

use crate::span::{Span, down};
use qc_figures::{Figured, parts};
use qc_model::ends;
use qc_motion::Waypoint;
use qc_num::{Bay, Tick};

/// What is drawn: a plan, and the hatches of its ship with their bays.
#[derive(Clone, Copy)]
pub struct Drawn<'a> {
    pub plan: Figured<'a>,
    pub hatches: &'a [u16],
    pub places: &'a [u16],
}

/// A plan that is drawn, and the scale of its paper. Places are in halves of a bay times travel.
#[derive(Clone, Copy)]
pub(crate) struct Paper<'a> {
    pub(crate) drawn: Drawn<'a>,
    /// Half the width of a hatch's column, and half of the gap of neighbouring cranes.
    half_wide: i128,
    pub(crate) half_gap: i128,
    pub(crate) span: Span,
    /// The end of the plan.
    pub(crate) end: Tick,
}

/// The column of a hatch on the paper.
#[derive(Clone, Copy)]
pub(crate) struct Column {
    pub(crate) from: u64,
    pub(crate) wide: u64,
}

impl Column {
    pub(crate) fn middle(self) -> u64 {
        self.from.saturating_add(self.wide / 2)
    }
}

/// The least step from one hatch to the next, and 1 with one hatch.
fn wide_of(places: &[u16]) -> u16 {
    if places.len() < 2 {
        return 1;
    }
    let mut wide: u16 = 6_000;
    for (place, next) in places.iter().zip(places.iter().skip(1)) {
        wide = wide.min(next.saturating_sub(*place));
    }
    wide
}

impl<'a> Drawn<'a> {
    /// So many bays, as a place.
    fn place_of(&self, bays: Bay) -> i128 {
        i128::from(bays).saturating_mul(i128::from(self.plan.inst.travel()))
    }

    /// The middle of the column of a hatch at a bay.
    fn middle_of(&self, bay: Bay) -> i128 {
        self.place_of(bay).saturating_mul(2)
    }

    /// A crane's place at a waypoint.
    pub(crate) fn half(&self, point: &Waypoint) -> i128 {
        let place = i128::from(point.place);
        match self.plan.way {
            Some(_) => place.saturating_mul(2),
            None => place,
        }
    }

    /// The span of the columns of all hatches.
    fn hatches_span(&self, half_wide: i128) -> Span {
        let first = self.places.first().copied().unwrap_or(0);
        let mut span = Span::around(self.middle_of(Bay::from(first)), half_wide);
        for bay in self.places {
            span = span.with(Span::around(self.middle_of(Bay::from(*bay)), half_wide));
        }
        span
    }

    /// The span with the half gaps of a crane at all its waypoints.
    fn with_points(&self, points: &[Waypoint], half_gap: i128, first: Span) -> Span {
        let mut span = first;
        for point in points {
            span = span.with(Span::around(self.half(point), half_gap));
        }
        span
    }

    /// The span with those of all cranes.
    fn with_tracks(&self, half_gap: i128, first: Span) -> Span
        requires { IsReady (view_of self.now.plan) }
    {
        let mut span = first;
        for crane in 0..self.plan.inst.crane_count() {
            span = self.with_points(self.plan.tracks.points(crane), half_gap, span);
        }
        span
    }

    /// The scale of the paper.
    pub(crate) fn paper(self) -> Paper<'a>
        requires { IsReady (view_of self.plan) }
        ensures { result.drawn ≡ self.entry }
    {
        let half_wide = self.place_of(Bay::from(wide_of(self.places)));
        let half_gap = self.place_of(self.plan.inst.gap());
        Paper {
            drawn: self,
            half_wide,
            half_gap,
            span: self.with_tracks(half_gap, self.hatches_span(half_wide)),
            end: ends(self.plan.inst, self.plan.sched),
        }
    }
}

impl Paper<'_> {
    /// Where a tick stands.
    pub(crate) fn down(&self, at: Tick) -> u64 {
        down(self.end, at)
    }

    /// How far down a waypoint stands, whose moment is told in parts of a tick.
    pub(crate) fn height_of(&self, point: &Waypoint) -> u64 {
        down(
            parts(self.drawn.plan.way).saturating_mul(self.end),
            point.at,
        )
    }

    /// Where a crane stands at a waypoint.
    pub(crate) fn across(&self, point: &Waypoint) -> u64 {
        self.span.across(self.drawn.half(point))
    }

    /// The column of a hatch at a bay.
    pub(crate) fn column(&self, bay: Bay) -> Column {
        let middle = self.drawn.middle_of(bay);
        let from = self.span.across(middle.saturating_sub(self.half_wide));
        let to = self.span.across(middle.saturating_add(self.half_wide));
        Column {
            from,
            wide: to.saturating_sub(from),
        }
    }
}
