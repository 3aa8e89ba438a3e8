//! The bands, lines and names of the cranes.

ghost use Rattle.std.specs.Prelude.{◌<◌, length};
ghost use Rattle.qc_figures.specs.Views.{IsReady, view_of};

use crate::elements::{Page, ink, tint};
use crate::paper::Paper;
use qc_model::Name;
use qc_motion::Waypoint;
use qc_num::Tick;

/// A crane on the paper.
#[derive(Clone, Copy)]
pub(crate) struct Lane<'a> {
    crane: u16,
    name: &'a Name,
    /// The tick from which it is ready, at most the end.
    ready: Tick,
    points: &'a [Waypoint],
}

impl<'a> Paper<'a> {
    fn lane(&self, crane: u16) -> Lane<'a>
        requires ready { IsReady (view_of self.now.drawn.plan) }
        requires crane { crane < length (view_of self.now.drawn.plan).inst.cranes }
    {
        let plan = self.drawn.plan;
        let of = plan.inst.crane(crane);
        Lane {
            crane,
            name: &of.name,
            ready: of.ready.min(self.end),
            points: plan.tracks.points(crane),
        }
    }
}

impl Paper<'_> {
    /// Puts the bow side of a band behind the drawing.
    fn put_bow_side(&self, points: &[Waypoint], page: &mut Page) {
        for point in points {
            let place = self.drawn.half(point).saturating_sub(self.half_gap);
            page.put_point(self.span.across(place), self.height_of(point));
        }
    }

    /// Puts the stern side of a band behind the drawing, from its last waypoint back.
    fn put_stern_side(&self, points: &[Waypoint], page: &mut Page) {
        for point in points.iter().rev() {
            let place = self.drawn.half(point).saturating_add(self.half_gap);
            page.put_point(self.span.across(place), self.height_of(point));
        }
    }

    /// Puts the band of a crane behind the drawing.
    fn put_band(&self, lane: &Lane<'_>, page: &mut Page) {
        page.put(b"<polygon fill=\"");
        page.put(tint(lane.crane));
        page.put(b"\" fill-opacity=\"0.6\" points=\"");
        self.put_bow_side(lane.points, page);
        self.put_stern_side(lane.points, page);
        page.put(b"\"/>\n");
    }

    /// Puts the bands of all cranes behind the drawing.
    pub(crate) fn put_bands(&self, page: &mut Page)
        requires { IsReady (view_of self.now.drawn.plan) }
    {
        for crane in 0..self.drawn.plan.inst.crane_count() {
            self.put_band(&self.lane(crane), page);
        }
    }

    /// Puts the waypoints of a crane behind the drawing.
    fn put_path(&self, points: &[Waypoint], page: &mut Page) {
        for point in points {
            page.put_point(self.across(point), self.height_of(point));
        }
    }

    /// Puts a line through the waypoints of a crane behind the drawing.
    fn put_stroke(&self, points: &[Waypoint], colour: &[u8], width: u64, page: &mut Page) {
        page.put(b"<polyline fill=\"none\" stroke=\"");
        page.put(colour);
        page.put(b"\" stroke-width=\"");
        page.put_number(width);
        page.put(b"\" points=\"");
        self.put_path(points, page);
        page.put(b"\"/>\n");
    }

    /// Puts the line of a crane behind the drawing: white under its ink, with white dashes over it up to its ready time.
    fn put_crane(&self, lane: &Lane<'_>, page: &mut Page) {
        self.put_stroke(lane.points, b"#ffffff", 44, page);
        self.put_stroke(lane.points, ink(lane.crane), 24, page);
        if let Some(first) = lane.points.first() {
            let x = self.across(first);
            let style = b"stroke=\"#ffffff\" stroke-width=\"24\" stroke-dasharray=\"70 70\"";
            page.put_line((x, 1_500), (x, self.down(lane.ready)), style);
        }
    }

    /// Puts the lines of all cranes behind the drawing.
    pub(crate) fn put_cranes(&self, page: &mut Page)
        requires { IsReady (view_of self.now.drawn.plan) }
    {
        for crane in 0..self.drawn.plan.inst.crane_count() {
            self.put_crane(&self.lane(crane), page);
        }
    }

    /// Puts the name of a crane at one of its waypoints behind the drawing.
    fn put_name_at(&self, lane: &Lane<'_>, point: Option<&Waypoint>, y: u64, page: &mut Page) {
        if let Some(point) = point {
            let style = b"font-size=\"170\" font-weight=\"bold\" text-anchor=\"middle\"";
            page.put_name(self.across(point), y, style, lane.crane, lane.name);
        }
    }

    /// Puts the names of all cranes behind the drawing, above tick 0 and below the end.
    pub(crate) fn put_names(&self, page: &mut Page)
        requires { IsReady (view_of self.now.drawn.plan) }
    {
        for crane in 0..self.drawn.plan.inst.crane_count() {
            let lane = self.lane(crane);
            self.put_name_at(&lane, lane.points.first(), 1_440, page);
            self.put_name_at(&lane, lane.points.last(), 11_290, page);
        }
    }
}
