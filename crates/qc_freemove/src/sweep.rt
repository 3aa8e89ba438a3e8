//! One crane of a schedule at half ticks.

ghost use Rattle.std.specs.Prelude.{◌≡◌, ◌≢◌, ◌≤◌, ◌<◌, ◌-ℤ◌, ◌↔◌, length, IsTrue};
ghost use Rattle.qc_model.specs.Instance.{IsOnRail, Valid};
ghost use Rattle.qc_model.specs.Limits.{IsNearRail};
ghost use Rattle.qc_model.specs.Motion.{bay_ahead, scaled};
ghost use Rattle.qc_model.specs.Judge.{IsJudgeable};
ghost use Rattle.qc_freemove.specs.FreeSweep.{FreeSwept, IsBend, IsFreeSound, IsHalfPlace, IsNearHold};
ghost use Rattle.qc_freemove.specs.FreeSweep.{berth_hold, floor_place, hold_count, hold_of, is_felt};
ghost use Rattle.qc_freemove.specs.FreeSweep.{last_half, place_at, task_hold};

use crate::hold::Hold;
use qc_model::{Direction, Instance, Judge, Schedule};
use qc_motion::floor_of;
use qc_num::Bay;
use std::marker::Model;

/// Whether the second of two steps is another than the first.
fn bends(before: i64, there: i64, after: i64) -> bool
    requires before { IsHalfPlace before }
    requires there { IsHalfPlace there }
    requires after { IsHalfPlace after }
    ensures { IsTrue result ↔ ((after -ℤ there) ≢ (there -ℤ before)) }
{
    after - there != there - before
}

/// The place of a bay at half ticks.
fn half_place(judge: &Judge, bay: Bay) -> i64
    requires { IsNearRail bay }
    ensures place { result ≡ scaled judge.now.inst 2 bay }
    ensures near { IsHalfPlace result }
{
    2 * judge.place_of(bay)
}

/// One crane of a schedule.
#[derive(Drop)]
pub(crate) struct Sweep<'a> {
    judge: Judge<'a>,
    crane: u16,
    floor: Bay,
}

impl<'a> Model for Sweep<'a> {
    ghost Value = { FreeSwept };

    ghost view = { λ s. record {
      inst = s.judge.inst;
      sched = s.judge.sched;
      crane = s.crane;
      floor = s.floor;
    } };

    ghost invariant = { λ s. IsFreeSound (record {
      inst = s.judge.inst;
      sched = s.judge.sched;
      crane = s.crane;
      floor = s.floor;
    }) × IsNearRail s.floor };
}

impl<'a> Sweep<'a> {
    /// A sweep of the crane with that number.
    pub(crate) fn new(inst: &'a Instance, sched: &'a Schedule, crane: u16) -> Sweep<'a>
        requires judgeable { IsJudgeable inst.now sched.now }
        requires range { crane < length inst.now.cranes }
        ensures inst { result.inst ≡ inst.now }
        ensures sched { result.sched ≡ sched.now }
        ensures crane { result.crane ≡ crane }
        ensures sound { IsFreeSound result }
        ensures valid { Valid inst.now }
    {
        let judge = Judge::new(inst, sched, Direction::Up);
        let floor = floor_of(&judge, crane);
        Sweep {
            judge,
            crane,
            floor,
        }
    }

    /// How many holds there are.
    pub(crate) fn holds(&self) -> u16
        ensures count { result ≡ hold_count self.now }
        ensures sound { IsFreeSound self.now }
    {
        self.judge.tasks() + self.crane + 1
    }

    /// The place below which the crane never goes.
    pub(crate) fn floor_place(&self) -> i64
        ensures place { result ≡ floor_place self.now }
        ensures sound { IsFreeSound self.now }
        ensures near { IsHalfPlace result }
    {
        half_place(&self.judge, self.floor)
    }

    /// The place at which a lower crane, or itself, has the crane while that is at a bay.
    fn place_ahead(&self, number: u16, bay: Bay) -> i64
        requires order { number ≤ self.now.crane }
        requires on_rail { IsOnRail bay }
        ensures place { result ≡ scaled self.now.inst 2 (bay_ahead self.now.inst number bay self.now.crane) }
        ensures near { IsHalfPlace result }
    {
        half_place(&self.judge, self.judge.bay_ahead(number, bay, self.crane))
    }

    /// Whether a number is that of a task of the crane itself or of a lower one.
    fn is_felt(&self, number: u16) -> bool
        ensures { result ≡ is_felt self.now number }
    {
        number < self.judge.tasks() && self.judge.work(number).crane <= self.crane
    }

    /// How a task holds the crane.
    fn task(&self, task: u16) -> Hold
        requires { IsTrue (is_felt self.now task) }
        ensures is { result ≡ task_hold self.now task }
        ensures near { IsNearHold result }
    {
        let work = self.judge.work(task);
        Hold {
            place: self.place_ahead(work.crane, work.bay),
            from: 2 * work.start,
            until: 2 * work.end,
        }
    }

    /// How the berth of a crane, its own or a lower one's, holds the crane.
    fn berth(&self, number: u16) -> Hold
        requires { number ≤ self.now.crane }
        ensures is { result ≡ berth_hold self.now number }
        ensures near { IsNearHold result }
    {
        let post = self.judge.post(number);
        Hold {
            place: self.place_ahead(number, post.bay),
            from: 0,
            until: 2 * post.ready,
        }
    }

    /// What holds the crane, by number.
    pub(crate) fn hold(&self, number: u16) -> Hold
        requires { number < hold_count self.now }
        ensures is { result ≡ hold_of self.now number }
        ensures near { IsNearHold result }
    {
        if self.is_felt(number) {
            self.task(number)
        } else {
            self.berth(number.saturating_sub(self.judge.tasks()))
        }
    }

    /// The place of the crane at a half tick.
    pub(crate) fn place(&self, at: u64) -> i64
        requires { at ≤ last_half }
        ensures place { result ≡ place_at self.now at }
        ensures near { IsHalfPlace result }
    {
        let mut place = self.floor_place();
        for number in 0..self.holds() {
            place = place.max(self.hold(number).at(at));
        }
        place
    }

    /// Whether the crane goes on otherwise than it came.
    pub(crate) fn turns(&self, at: u64) -> bool
        requires begun { 0 < at }
        requires at { at < last_half }
        ensures { IsTrue result ↔ IsBend self.now at }
    {
        bends(self.place(at - 1), self.place(at), self.place(at + 1))
    }
}
