//! How far the reports of every crane are passed.

ghost use Rattle.std.specs.Prelude.{◌≡◌, ◌+◌, ◌<◌, MatchOption};
ghost use Rattle.qc_watch.specs.Cursors.{AreCut, ArePlaces, AreSmall, IsCut, IsNextTime, IsOver};
ghost use Rattle.qc_watch.specs.Numbers.{past_times};
ghost use Rattle.qc_watch.specs.Reports.{AreOfOne, AreReports};

use crate::place::{Place, place_at};
use crate::report::Report;
use crate::reports::Reports;
use qc_model::MOST_CRANES;
use qc_num::{Tick, lesser};

/// The most cranes, as the length of an array.
const CRANES: usize = MOST_CRANES as usize;

/// A place for each crane that is known.
pub(crate) type Places = [Option<Place>; CRANES];

/// How far the reports of every crane are passed.
#[derive(Clone, Copy)]
pub(crate) struct Cursors {
    /// How many reports of each crane are passed.
    next: [usize; CRANES],
    /// The tick before which they are.
    tick: Tick,
}

/// How many reports are passed with those at this tick, of which the first `next` are before it.
fn passed(list: &[Report], next: usize, tick: Tick) -> usize
    requires list { AreOfOne list.now }
    requires cut { IsCut list.now next tick }
    ensures { IsCut list.now result (tick + 1) }
{
    if next == list.len() {
        return next;
    }
    if list[next].at == tick {
        next + 1
    } else {
        next
    }
}

impl Cursors {
    /// No report is passed.
    pub(crate) fn start(reports: &Reports) -> Cursors
        ensures cut { AreCut reports.now result.next result.tick }
        ensures tick { result.tick ≡ 0 }
    {
        Cursors {
            next: [0; CRANES],
            tick: 0,
        }
    }

    /// The time of the soonest report that isn't passed; none where all are.
    pub(crate) fn soonest(&self, reports: &Reports) -> Option<Tick>
        requires { AreCut reports.now self.now.next self.now.tick }
        ensures time { MatchOption result (IsOver reports.now self.now.tick)
            (λ at. IsNextTime reports.now self.now.tick at) }
        ensures cut { MatchOption result (IsOver reports.now self.now.tick)
            (λ at. AreCut reports.now self.now.next at) }
        ensures reports { AreReports reports.now }
    {
        let mut soonest = None;
        for crane in 0..reports.cranes() {
            let list = reports.of(crane);
            let next = self.next[crane as usize];
            if next < list.len() {
                soonest = Some(lesser(soonest, list[next].at));
            }
        }
        soonest
    }

    /// The places of the cranes at a tick before which all passed reports are, and no other.
    pub(crate) fn places(&self, reports: &Reports, tick: Tick) -> Places
        requires { AreCut reports.now self.now.next tick }
        ensures places { ArePlaces reports.now tick result }
        ensures small { AreSmall result }
    {
        let mut places = [None; CRANES];
        for crane in 0..reports.cranes() {
            places[crane as usize] = place_at(reports.of(crane), self.next[crane as usize], tick);
        }
        places
    }

    /// The reports at this tick are passed too.
    pub(crate) fn passed(&self, reports: &Reports, tick: Tick) -> Cursors
        requires cut { AreCut reports.now self.now.next tick }
        requires digits { tick < past_times }
        ensures cut { AreCut reports.now result.next result.tick }
        ensures tick { result.tick ≡ tick + 1 }
    {
        let mut next = [0; CRANES];
        for crane in 0..reports.cranes() {
            next[crane as usize] = passed(reports.of(crane), self.next[crane as usize], tick);
        }
        Cursors {
            next,
            tick: tick + 1,
        }
    }
}
