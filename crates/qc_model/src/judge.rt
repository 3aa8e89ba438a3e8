//! How a schedule is judged: its tasks and cranes as the rules see them, and the first tasks at
//! which a rule fails.

ghost use Rattle.std.specs.Prelude.{◌≡◌, ◌≤◌, ◌<◌, ◌↔◌, IsTrue, length, MatchOption};
ghost use Rattle.qc_model.specs.Numbers.{most_distance, most_end, most_ready};
ghost use Rattle.qc_model.specs.Instance.{bay_of, crane, release_of, IsApart, IsBefore, IsOnRail, Valid};
ghost use Rattle.qc_model.specs.Motion.{bay_ahead, bay_behind, scaled};
ghost use Rattle.qc_model.specs.Limits.{IsNearRail, IsPlaceNear};
ghost use Rattle.qc_model.specs.Judge.{IsJudgedAt, IsJudgeable, FaultIs};
ghost use Rattle.qc_model.specs.Rules.{crane_of, start_of, end_of};
ghost use Rattle.qc_model.specs.Ticks.{distance, travel_between};
ghost use Rattle.qc_model.specs.Judged.{Judged, IsFirstBeside, KeepsBeside};
ghost use Rattle.qc_model.specs.Seen.{seen, seen_schedule};

use crate::seen::{Post, seen_bay, seen_number, seen_post};
use crate::ticks::{bays_between, distance, gap_over, place_of, travel_over};
use crate::{Direction, Instance, Pair, Rule, Schedule};
use qc_num::{Bay, Tick};
use std::marker::Model;

/// A task as it is done: by which crane, where and when.
#[derive(Clone, Copy)]
pub struct Work {
    /// The number of its crane.
    pub crane: u16,
    /// Its crane bay.
    pub bay: Bay,
    /// When it starts, in ticks.
    pub start: Tick,
    /// When it ends, in ticks.
    pub end: Tick,
    ghost on_rail: { IsOnRail bay },
    ghost bounded: { end ≤ most_end },
}

/// A schedule that is judged with a direction: seen as the instance and the schedule themselves, or
/// from the other end of the ship. Tasks keep their numbers.
#[derive(Drop)]
pub struct Judge<'a> {
    inst: &'a Instance,
    sched: &'a Schedule,
    way: Direction,
    tasks: u16,
}

impl<'a> Model for Judge<'a> {
    ghost Value = { Judged };

    ghost view = { λ j. record {
      inst = seen j.inst.now j.way;
      sched = seen_schedule j.inst.now j.sched.now j.way;
    } };

    ghost invariant = { λ j. (j.tasks ≡ length j.inst.now.tasks)
        × IsJudgeable j.inst.now j.sched.now };
}

impl<'a> Judge<'a> {
    /// The schedule with that direction.
    pub fn new(inst: &'a Instance, sched: &'a Schedule, way: Direction) -> Judge<'a>
        requires { IsJudgeable inst.now sched.now }
        ensures view { result ≡ record {
          inst = seen inst.now way;
          sched = seen_schedule inst.now sched.now way;
        } }
        ensures valid { Valid inst.now }
    {
        Judge {
            inst,
            sched,
            way,
            tasks: inst.tasks().len() as u16,
        }
    }

    /// How many tasks there are.
    pub fn tasks(&self) -> u16
        ensures { result ≡ length self.now.inst.tasks }
    {
        self.tasks
    }

    /// How many cranes there are.
    pub fn cranes(&self) -> u16
        ensures { result ≡ length self.now.inst.cranes }
    {
        self.inst.cranes().len() as u16
    }

    /// How a task is done.
    pub fn work(&self, task: u16) -> Work
        requires { task < length self.now.inst.tasks }
        ensures crane { result.crane ≡ crane_of self.now.sched task }
        ensures range { result.crane < length self.now.inst.cranes }
        ensures bay { result.bay ≡ bay_of self.now.inst task }
        ensures start { result.start ≡ start_of self.now.sched task }
        ensures end { result.end ≡ end_of self.now.inst self.now.sched task }
    {
        let found = &self.inst.tasks()[task as usize];
        let slot = &self.sched.slots()[task as usize];
        Work {
            crane: seen_number(self.inst, self.way, slot.crane),
            bay: seen_bay(self.inst, self.way, found.bay),
            start: slot.start,
            end: slot.start + found.ticks,
        }
    }

    /// No earlier than this may a task start.
    pub(crate) fn release(&self, task: u16) -> Tick
        requires { task < length self.now.inst.tasks }
        ensures { result ≡ release_of self.now.inst task }
    {
        self.inst.tasks()[task as usize].release
    }

    /// A crane by its number.
    pub fn post(&self, number: u16) -> Post
        requires { number < length self.now.inst.cranes }
        ensures ready { result.ready ≡ (crane self.now.inst number).ready }
        ensures bay { result.bay ≡ (crane self.now.inst number).bay }
        ensures from { result.from ≡ (crane self.now.inst number).from }
        ensures to { result.to ≡ (crane self.now.inst number).to }
        ensures soon { result.ready ≤ most_ready }
        ensures on_rail { IsOnRail result.bay }
    {
        let index = seen_number(self.inst, self.way, number);
        seen_post(self.inst, self.way, &self.inst.cranes()[index as usize])
    }

    /// The travel between two bays.
    pub(crate) fn travel_between(&self, one: Bay, other: Bay) -> Tick
        requires one { IsOnRail one }
        requires other { IsOnRail other }
        ensures ticks { result ≡ travel_between self.now.inst one other }
        ensures bound { result ≤ most_distance }
    {
        travel_over(self.inst, bays_between(one, other))
    }

    /// The ticks by which crane `v` at bay `x` and crane `w` at bay `y` keep clear of each other.
    pub(crate) fn distance(&self, v: u16, x: Bay, w: u16, y: Bay) -> Tick
        requires first_crane { v < length self.now.inst.cranes }
        requires second_crane { w < length self.now.inst.cranes }
        requires first_bay { IsOnRail x }
        requires second_bay { IsOnRail y }
        ensures ticks { result ≡ distance self.now.inst v x w y }
        ensures bound { result ≤ most_distance }
    {
        distance(self.inst, v, x, w, y)
    }

    /// How high crane `k` must at least stand while a crane `v` of no higher number stands at a bay.
    pub fn bay_ahead(&self, v: u16, bay: Bay, k: u16) -> Bay
        requires order { v ≤ k }
        requires range { k < length self.now.inst.cranes }
        requires on_rail { IsOnRail bay }
        ensures bay { result ≡ bay_ahead self.now.inst v bay k }
        ensures near { IsNearRail result }
    {
        bay + gap_over(self.inst, k - v)
    }

    /// How high crane `k` may at most stand while a crane `w` of no lower number stands at a bay.
    pub fn bay_behind(&self, w: u16, bay: Bay, k: u16) -> Bay
        requires order { k ≤ w }
        requires range { w < length self.now.inst.cranes }
        requires on_rail { IsOnRail bay }
        ensures bay { result ≡ bay_behind self.now.inst w bay k }
        ensures near { IsNearRail result }
    {
        bay - gap_over(self.inst, w - k)
    }

    /// A bay as a place: times the ticks of travel per bay.
    pub fn place_of(&self, bay: Bay) -> i64
        requires { IsNearRail bay }
        ensures place { result ≡ scaled self.now.inst 1 bay }
        ensures near { IsPlaceNear result }
    {
        place_of(self.inst, bay)
    }

    /// Whether one task must end before another starts.
    pub(crate) fn is_before(&self, first: u16, second: u16) -> bool
        ensures { IsTrue result ↔ IsBefore self.now.inst first second }
    {
        self.inst.is_before(first, second)
    }

    /// Whether two tasks, of which the first is the lower, may not run at the same time.
    pub(crate) fn is_apart(&self, first: u16, second: u16) -> bool
        ensures { IsTrue result ↔ IsApart self.now.inst first second }
    {
        self.inst.is_apart(first, second)
    }
}

/// Whether the rule is judged at these tasks.
fn is_judged_at(rule: Rule, first: u16, second: u16) -> bool
    ensures { IsTrue result ↔ IsJudgedAt rule first second }
{
    match rule {
        Rule::Reach | Rule::Ready | Rule::Berth => first == second,
        Rule::Travel | Rule::Before | Rule::Apart | Rule::Margin | Rule::OneWay => first < second,
    }
}

impl Judge<'_> {
    /// The first task beside which the rule fails at the given one.
    fn first_beside(&self, rule: Rule, first: u16) -> Option<u16>
        requires { first < length self.now.inst.tasks }
        ensures { MatchOption result
            (KeepsBeside self.now rule first (length self.now.inst.tasks))
            (IsFirstBeside self.now rule first) }
    {
        for second in 0..self.tasks() {
            if is_judged_at(rule, first, second) && !self.keeps(rule, first, second) {
                return Some(second);
            }
        }
        None
    }

    /// The first tasks at which the rule fails.
    pub(crate) fn first_fault(&self, rule: Rule) -> Option<Pair>
        ensures { FaultIs self.now.inst self.now.sched rule result }
    {
        for first in 0..self.tasks() {
            if let Some(second) = self.first_beside(rule, first) {
                return Some(Pair { first, second });
            }
        }
        None
    }
}
