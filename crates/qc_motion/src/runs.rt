//! How far a crane goes on evenly from a tick.

ghost use Rattle.std.specs.Prelude.{◌+◌, ◌≤◌, ◌<◌, ◌↔◌, length, IsTrue};
ghost use Rattle.qc_model.specs.declared.limits.TheConstants.{MOST_END};
ghost use Rattle.qc_model.specs.Rules.{start_of};
ghost use Rattle.qc_model.specs.Limits.{IsPlaceNear};
ghost use Rattle.qc_motion.specs.Sweep.{HoldsAt, IsAt, IsBelow, IsBerthAt, IsFirst, IsHeld, IsHigher, IsLast};
ghost use Rattle.qc_motion.specs.Sweep.{IsOnRise, IsRun, IsSound, descent, floor_place, passing, ready_of, stopping};

use crate::sweep::Sweep;
use qc_num::Tick;
use std::cmp::Ordering;

// How long a crane goes on as it goes: each loop is over tasks or berths, and none over ticks.
impl Sweep<'_> {
    /// The last tick of a rise from a place: the last start of the tasks to which the crane comes just in time.
    fn rise_end(&self, at: Tick, place: i64) -> Tick
        requires at { at ≤ MOST_END }
        requires near { IsPlaceNear place }
        ensures { IsLast (IsOnRise self.now at place) (start_of self.now.sched)
            (length self.now.inst.tasks) at result }
    {
        let mut end = at;
        for task in 0..self.tasks() {
            let Some(hold) = self.task(task) else {
                continue;
            };
            if hold.place + at as i64 == place + hold.at as i64 {
                end = end.max(hold.at);
            }
        }
        end
    }

    /// The first tick at which a task comes to have the crane at a place and then higher; at most `end`.
    fn first_above(&self, at: Tick, place: i64, end: Tick) -> Tick
        requires at { at ≤ MOST_END }
        requires near { IsPlaceNear place }
        requires place { IsAt self.now at place }
        ensures { IsFirst (IsHigher self.now place) (passing self.now place)
            (length self.now.inst.tasks) end result }
    {
        let mut first = end;
        for task in 0..self.tasks() {
            let Some(hold) = self.task(task) else {
                continue;
            };
            if place < hold.place {
                first = first.min(hold.at - hold.place.abs_diff(place));
            }
        }
        first
    }

    /// Whether a task that has started by the next tick holds the crane at a place.
    fn task_holds(&self, task: u16, at: Tick, place: i64) -> bool
        requires at { at ≤ MOST_END }
        requires task { task < length self.now.inst.tasks }
        ensures { IsTrue result ↔ HoldsAt self.now at place task }
    {
        match self.task(task) {
            Some(hold) => hold.place == place && hold.at <= at + 1,
            None => false,
        }
    }

    /// Whether the floor or a task holds the crane at a place from the next tick on.
    fn is_held(&self, at: Tick, place: i64) -> bool
        requires { at ≤ MOST_END }
        ensures { IsTrue result ↔ IsHeld self.now at place }
    {
        if self.floor_place() == place {
            return true;
        }
        for task in 0..self.tasks() {
            if self.task_holds(task, at, place) {
                return true;
            }
        }
        false
    }

    /// The last tick at which a berth holds the crane at a place, or the next tick where that is later.
    fn last_berth(&self, at: Tick, place: i64) -> Tick
        requires { at ≤ MOST_END }
        ensures { IsLast (IsBerthAt self.now place) (ready_of self.now)
            (self.now.crane + 1) (at + 1) result }
    {
        let mut last = at + 1;
        for number in 0..self.berths() {
            let hold = self.berth(number);
            if hold.place == place {
                last = last.max(hold.at);
            }
        }
        last
    }

    /// The last tick of a fall from a place: at the floor, or at a berth that still stands.
    fn fall_end(&self, at: Tick, place: i64) -> Tick
        requires at { at ≤ MOST_END }
        requires near { IsPlaceNear place }
        requires place { IsAt self.now at place }
        ensures { IsFirst (IsBelow self.now at place) (stopping self.now at place)
            (self.now.crane + 1) (descent at place (floor_place self.now)) result }
    {
        let mut end = at + place.abs_diff(self.floor_place());
        for number in 0..self.berths() {
            let hold = self.berth(number);
            if place + (at as i64) < hold.place + hold.at as i64 {
                end = end.min(at + place.abs_diff(hold.place));
            }
        }
        end
    }

    /// The last tick of a rest at a place: until a task raises the crane, or the last berth that holds it is left.
    fn rest_end(&self, at: Tick, place: i64, end: Tick) -> Tick
        requires sound { IsSound self.now }
        requires at { at < end }
        requires end { end ≤ MOST_END }
        requires near { IsPlaceNear place }
        requires place { IsAt self.now at place }
        requires next { IsAt self.now (at + 1) place }
        ensures { IsRun self.now at place end result }
    {
        let first = self.first_above(at, place, end);
        if self.is_held(at, place) {
            first
        } else {
            first.min(self.last_berth(at, place))
        }
    }

    /// The tick up to which the crane goes one way from a tick on, and at which it turns; at most `end`.
    pub(crate) fn run_end(&self, at: Tick, place: i64, end: Tick) -> Tick
        requires sound { IsSound self.now }
        requires at { at < end }
        requires end { end ≤ MOST_END }
        requires near { IsPlaceNear place }
        requires place { IsAt self.now at place }
        ensures { IsRun self.now at place end result }
    {
        match self.place(at + 1).cmp(&place) {
            Ordering::Greater => self.rise_end(at, place).min(end),
            Ordering::Equal => self.rest_end(at, place, end),
            Ordering::Less => self.fall_end(at, place).min(end),
        }
    }
}
