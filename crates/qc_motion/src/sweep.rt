//! One crane and the tasks on both sides of it, moment by moment.

ghost use Rattle.std.specs.Prelude.{◌≡◌, ◌+◌, ◌≤◌, ◌<◌, length, MatchOption};
ghost use Rattle.qc_model.specs.declared.limits.TheConstants.{MOST_END};
ghost use Rattle.qc_model.specs.Instance.{IsOnRail, Valid, crane as crane_at};
ghost use Rattle.qc_model.specs.Limits.{IsPlaceNear, IsNearRail};
ghost use Rattle.qc_model.specs.Motion.{bay_ahead, scaled};
ghost use Rattle.qc_model.specs.Judge.{IsJudgeable, Goes};
ghost use Rattle.qc_model.specs.Motion.{scaled};
ghost use Rattle.qc_model.specs.Rules.{crane_of, start_of};
ghost use Rattle.qc_model.specs.Seen.{seen, seen_schedule, seen_number};
ghost use Rattle.qc_motion.specs.Sweep.{IsSound, Swept, IsAt, IsFelt, IsHighest, berth_hold, floor_place, task_hold};

use crate::floor::floor_of;
use qc_model::{Direction, Instance, Judge, Schedule, seen_number};
use qc_num::{Bay, Tick};
use std::marker::Model;

/// The place at which a task or a berth has a crane, and the tick from which or until which it does.
#[derive(Clone, Copy)]
pub(crate) struct Hold {
    pub(crate) place: i64,
    pub(crate) at: Tick,
    ghost near: { IsPlaceNear place },
    ghost bounded: { at ≤ MOST_END },
}

/// One crane in a schedule that is seen with its direction, so that it goes up.
#[derive(Drop)]
pub(crate) struct Sweep<'a> {
    judge: Judge<'a>,
    crane: u16,
    floor: Bay,
}

impl<'a> Model for Sweep<'a> {
    ghost Value = { Swept };

    ghost view = { λ s. record {
      inst = s.judge.inst;
      sched = s.judge.sched;
      crane = s.crane;
      floor = s.floor;
    } };

    ghost invariant = { λ s. IsSound (record {
      inst = s.judge.inst;
      sched = s.judge.sched;
      crane = s.crane;
      floor = s.floor;
    }) × IsNearRail s.floor };
}

impl<'a> Sweep<'a> {
    /// A sweep of the crane with that number in the instance.
    pub(crate) fn new(
        inst: &'a Instance,
        sched: &'a Schedule,
        way: Direction,
        crane: u16,
    ) -> Sweep<'a>
        requires judgeable { IsJudgeable inst.now sched.now }
        requires goes { Goes inst.now sched.now way }
        requires range { crane < length inst.now.cranes }
        ensures inst { result.inst ≡ seen inst.now way }
        ensures sched { result.sched ≡ seen_schedule inst.now sched.now way }
        ensures crane { result.crane ≡ seen_number inst.now way crane }
        ensures sound { IsSound result }
        ensures valid { Valid inst.now }
    {
        let judge = Judge::new(inst, sched, way);
        let crane = seen_number(inst, way, crane);
        let floor = floor_of(&judge, crane);
        Sweep {
            judge,
            crane,
            floor,
        }
    }

    /// The place at which a lower crane, or itself, has the crane while that is at a bay.
    fn place_ahead(&self, number: u16, bay: Bay) -> i64
        requires order { number ≤ self.now.crane }
        requires on_rail { IsOnRail bay }
        ensures place { result ≡ scaled self.now.inst 1 (bay_ahead self.now.inst number bay self.now.crane) }
        ensures near { IsPlaceNear result }
    {
        self.judge
            .place_of(self.judge.bay_ahead(number, bay, self.crane))
    }

    /// Where a task has the crane, and from its start on; `None` where it is a higher crane's.
    pub(crate) fn task(&self, task: u16) -> Option<Hold>
        requires { task < length self.now.inst.tasks }
        ensures { MatchOption result (self.now.crane < crane_of self.now.sched task) (λ hold.
            IsFelt self.now task
            × (hold.place ≡ task_hold self.now task)
            × (hold.at ≡ start_of self.now.sched task)) }
    {
        let work = self.judge.work(task);
        if self.crane < work.crane {
            return None;
        }
        Some(Hold {
            place: self.place_ahead(work.crane, work.bay),
            at: work.start,
        })
    }

    /// Where the berth of a crane, its own or a lower one's, has the crane, and until when.
    pub(crate) fn berth(&self, number: u16) -> Hold
        requires { number ≤ self.now.crane }
        ensures place { result.place ≡ berth_hold self.now number }
        ensures at { result.at ≡ (crane_at self.now.inst number).ready }
    {
        let post = self.judge.post(number);
        Hold {
            place: self.place_ahead(number, post.bay),
            at: post.ready,
        }
    }

    /// How many tasks there are.
    pub(crate) fn tasks(&self) -> u16
        ensures count { result ≡ length self.now.inst.tasks }
        ensures sound { IsSound self.now }
    {
        self.judge.tasks()
    }

    /// How many berths there are of the crane and of lower ones.
    pub(crate) fn berths(&self) -> u16
        ensures count { result ≡ self.now.crane + 1 }
        ensures sound { IsSound self.now }
    {
        self.crane + 1
    }

    /// The place below which the crane never goes.
    pub(crate) fn floor_place(&self) -> i64
        ensures place { result ≡ floor_place self.now }
        ensures sound { IsSound self.now }
        ensures near { IsPlaceNear result }
    {
        self.judge.place_of(self.floor)
    }

    /// The highest of the floor and the places at which tasks have the crane at a tick.
    fn place_by_tasks(&self, at: Tick) -> i64
        requires { at ≤ MOST_END }
        ensures { IsHighest self.now at (length self.now.inst.tasks) 0 result }
    {
        let mut place = self.floor_place();
        for task in 0..self.tasks() {
            if let Some(hold) = self.task(task) {
                place = place.max(hold.place - hold.at.saturating_sub(at) as i64);
            }
        }
        place
    }

    /// The place of the crane at a tick.
    pub(crate) fn place(&self, at: Tick) -> i64
        requires { at ≤ MOST_END }
        ensures place { IsAt self.now at result }
        ensures near { IsPlaceNear result }
    {
        let mut place = self.place_by_tasks(at);
        for number in 0..self.berths() {
            let hold = self.berth(number);
            place = place.max(hold.place - at.saturating_sub(hold.at) as i64);
        }
        place
    }
}
