//! Whether a rule holds at one or two tasks.

ghost use Rattle.std.specs.Prelude.{◌+◌, ◌<◌, ◌≤◌, ◌⊎◌, ◌↔◌, IsTrue, length};
ghost use Rattle.qc_model.specs.Numbers.{most_distance};
ghost use Rattle.qc_model.specs.declared.rules.Rule.TheVariants.{Berth, OneWay};
ghost use Rattle.qc_model.specs.Judge.{Keeps};
ghost use Rattle.qc_model.specs.OneWay.{KeepsClimb, KeepsLead};
ghost use Rattle.qc_model.specs.Rules.{KeepsApart, KeepsBefore, KeepsBerth, KeepsMargin, KeepsReach, KeepsReady, KeepsTravel};

use crate::Rule;
use crate::judge::{Judge, Work};
use qc_num::Tick;

/// Whether one of the two ends so many ticks before the other starts.
fn is_clear(one: &Work, other: &Work, ticks: Tick) -> bool
    requires { ticks ≤ most_distance }
    ensures { IsTrue result
        ↔ ((one.now.end + ticks ≤ other.now.start) ⊎ (other.now.end + ticks ≤ one.now.start)) }
{
    one.end + ticks <= other.start || other.end + ticks <= one.start
}

impl Judge<'_> {
    /// Whether a rule holds at these tasks.
    pub(crate) fn keeps(&self, rule: Rule, first: u16, second: u16) -> bool
        requires first_range { first < length self.now.inst.tasks }
        requires second_range { second < length self.now.inst.tasks }
        ensures { IsTrue result ↔ Keeps self.now.inst self.now.sched rule first second }
    {
        match rule {
            Rule::Reach => self.keeps_reach(second),
            Rule::Ready => self.keeps_ready(second),
            Rule::Travel => self.keeps_travel(first, second),
            Rule::Before => self.keeps_before(first, second) && self.keeps_before(second, first),
            Rule::Apart => self.keeps_apart(first, second) && self.keeps_apart(second, first),
            Rule::Margin => self.keeps_margin(first, second),
            Rule::Berth => self.keeps_berth(second),
            Rule::OneWay => self.keeps_one_way(first, second),
        }
    }

    /// Whether the task's bay lies within the reach of its crane.
    fn keeps_reach(&self, task: u16) -> bool
        requires { task < length self.now.inst.tasks }
        ensures { IsTrue result ↔ KeepsReach self.now.inst self.now.sched task }
    {
        let work = self.work(task);
        let post = self.post(work.crane);
        post.from <= work.bay && work.bay <= post.to
    }

    /// Whether the task is held back no longer by then, and its crane is ready and has come from its
    /// start bay.
    fn keeps_ready(&self, task: u16) -> bool
        requires { task < length self.now.inst.tasks }
        ensures { IsTrue result ↔ KeepsReady self.now.inst self.now.sched task }
    {
        let work = self.work(task);
        let post = self.post(work.crane);
        self.release(task) <= work.start
            && post.ready + self.travel_between(post.bay, work.bay) <= work.start
    }

    /// Whether a crane that does both tasks has the time to go from one to the other.
    fn keeps_travel(&self, first: u16, second: u16) -> bool
        requires first_range { first < length self.now.inst.tasks }
        requires second_range { second < length self.now.inst.tasks }
        ensures { IsTrue result ↔ KeepsTravel self.now.inst self.now.sched first second }
    {
        let one = self.work(first);
        let other = self.work(second);
        one.crane != other.crane || is_clear(&one, &other, self.travel_between(one.bay, other.bay))
    }

    /// Whether the second task starts after the first has ended, where it must.
    fn keeps_before(&self, first: u16, second: u16) -> bool
        requires first_range { first < length self.now.inst.tasks }
        requires second_range { second < length self.now.inst.tasks }
        ensures { IsTrue result ↔ KeepsBefore self.now.inst self.now.sched first second }
    {
        !self.is_before(first, second) || self.work(first).end <= self.work(second).start
    }

    /// Whether the two tasks don't run at the same time, where they may not.
    fn keeps_apart(&self, first: u16, second: u16) -> bool
        requires first_range { first < length self.now.inst.tasks }
        requires second_range { second < length self.now.inst.tasks }
        ensures { IsTrue result ↔ KeepsApart self.now.inst self.now.sched first second }
    {
        !self.is_apart(first, second) || is_clear(&self.work(first), &self.work(second), 0)
    }

    /// Whether tasks of two cranes that would come too near keep clear of each other in time.
    fn keeps_margin(&self, first: u16, second: u16) -> bool
        requires first_range { first < length self.now.inst.tasks }
        requires second_range { second < length self.now.inst.tasks }
        ensures { IsTrue result ↔ KeepsMargin self.now.inst self.now.sched first second }
    {
        let one = self.work(first);
        let other = self.work(second);
        let ticks = self.distance(one.crane, one.bay, other.crane, other.bay);
        one.crane == other.crane || ticks == 0 || is_clear(&one, &other, ticks)
    }

    /// Whether the task keeps clear of a crane that waits at its start bay.
    fn keeps_clear_of(&self, task: u16, number: u16) -> bool
        requires range { task < length self.now.inst.tasks }
        requires crane_range { number < length self.now.inst.cranes }
        ensures { IsTrue result ↔ KeepsBerth self.now.inst self.now.sched task number }
    {
        let work = self.work(task);
        let post = self.post(number);
        let ticks = self.distance(number, post.bay, work.crane, work.bay);
        number == work.crane || ticks == 0 || post.ready + ticks <= work.start
    }

    /// Whether the task keeps clear of all cranes that wait at their start bays.
    fn keeps_berth(&self, task: u16) -> bool
        requires { task < length self.now.inst.tasks }
        ensures { IsTrue result ↔ Keeps self.now.inst self.now.sched Berth task task }
    {
        for number in 0..self.cranes() {
            if !self.keeps_clear_of(task, number) {
                return false;
            }
        }
        true
    }

    /// Whether the second task's start leaves the time to go up to it after the first, where one
    /// crane does both and the second lies higher.
    fn keeps_climb(&self, first: u16, second: u16) -> bool
        requires first_range { first < length self.now.inst.tasks }
        requires second_range { second < length self.now.inst.tasks }
        ensures { IsTrue result ↔ KeepsClimb self.now.inst self.now.sched first second }
    {
        let one = self.work(first);
        let other = self.work(second);
        one.crane != other.crane
            || one.bay >= other.bay
            || one.end + self.travel_between(one.bay, other.bay) <= other.start
    }

    /// Whether the first task is first where it is that of a higher crane and the two would come
    /// too near.
    fn keeps_lead(&self, first: u16, second: u16) -> bool
        requires first_range { first < length self.now.inst.tasks }
        requires second_range { second < length self.now.inst.tasks }
        ensures { IsTrue result ↔ KeepsLead self.now.inst self.now.sched first second }
    {
        let one = self.work(first);
        let other = self.work(second);
        let ticks = self.distance(one.crane, one.bay, other.crane, other.bay);
        one.crane <= other.crane || ticks == 0 || one.end + ticks <= other.start
    }

    /// Whether the two tasks are done in the order of a schedule that goes one way.
    fn keeps_one_way(&self, first: u16, second: u16) -> bool
        requires first_range { first < length self.now.inst.tasks }
        requires second_range { second < length self.now.inst.tasks }
        ensures { IsTrue result ↔ Keeps self.now.inst self.now.sched OneWay first second }
    {
        self.keeps_climb(first, second)
            && self.keeps_climb(second, first)
            && self.keeps_lead(first, second)
            && self.keeps_lead(second, first)
    }
}
