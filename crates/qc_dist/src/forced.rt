//! What decisions force: time lags between tasks, and when each can start at the least.

ghost use Rattle.std.specs.Prelude.{◌≡◌, ◌+◌, ◌<◌, ◌≤◌, ◌↔◌, IfSome, IsTrue, length};
ghost use Rattle.qc_model.specs.declared.limits.TheConstants.{MOST_DISTANCE, MOST_READY, MOST_WORK};
ghost use Rattle.qc_model.specs.Nodes.{IsSettled, assigned, clear_ticks, crane_ticks, forced, greater, head, is_sooner, pair_ticks, sooner_ticks};
ghost use Rattle.qc_dist.specs.Added.{excess};

use crate::Decisions;
use crate::travel::{separation, upward_ticks};
use qc_model::Turn;
use qc_num::Tick;

/// The greater of two numbers that may be missing.
fn greater(one: Option<Tick>, other: Option<Tick>) -> Option<Tick>
    ensures { result ≡ greater one other }
{
    match (one, other) {
        (None, other) => other,
        (Some(ticks), None) => Some(ticks),
        (Some(ticks), Some(more)) => Some(ticks.max(more)),
    }
}

/// The second of two numbers that may be missing, where it is there and no first is as great.
fn excess(one: Option<Tick>, other: Option<Tick>) -> Option<Tick>
    requires { IfSome other (λ ticks. ticks ≤ MOST_WORK + MOST_DISTANCE) }
    ensures ticks { result ≡ excess one other }
    ensures bound { IfSome result (λ ticks. ticks ≤ MOST_WORK + MOST_DISTANCE) }
{
    match (one, other) {
        (_, None) => None,
        (None, Some(ticks)) => Some(ticks),
        (Some(less), Some(ticks)) => { if less < ticks { Some(ticks) } else { None } }
    }
}

impl Decisions {
    /// The time lag from task `i` to task `j`: the ticks by which `j` must start after the start of
    /// `i` in every schedule of the instance's turn that agrees with the decisions; `None` exactly where nothing is
    /// forced.
    pub fn forced(&self, i: u16, j: u16) -> Option<Tick>
        requires first { i < length self.now.inst.tasks }
        requires second { j < length self.now.inst.tasks }
        ensures ticks { result ≡ forced self.now.inst self.now.decisions i j }
        ensures bound { IfSome result (λ ticks. ticks ≤ MOST_WORK + MOST_DISTANCE) }
    {
        greater(self.sooner_ticks(i, j), self.crane_ticks(i, j))
    }

    /// What cranes ask for that go as they like: where the one task is sooner, time to be clear of it.
    fn clear_ticks(&self, i: u16, v: u16, j: u16, w: u16) -> Option<Tick>
        requires first_task { i < length self.now.inst.tasks }
        requires first_crane { v < length self.now.inst.cranes }
        requires second_task { j < length self.now.inst.tasks }
        requires second_crane { w < length self.now.inst.cranes }
        ensures ticks { result ≡ clear_ticks self.now.inst
            (is_sooner self.now.inst self.now.decisions i j) i v j w }
        ensures bound { IfSome result (λ ticks. ticks ≤ MOST_WORK + MOST_DISTANCE) }
    {
        if self.is_sooner(i, j) {
            let inst = self.instance();
            Some(inst.task(i).ticks + separation(inst, i, v, j, w))
        } else {
            None
        }
    }

    /// What the cranes of two tasks ask for, by the turn of the instance.
    #[inline(always)]
    fn pair_ticks(&self, i: u16, v: u16, j: u16, w: u16) -> Option<Tick>
        requires first_task { i < length self.now.inst.tasks }
        requires first_crane { v < length self.now.inst.cranes }
        requires second_task { j < length self.now.inst.tasks }
        requires second_crane { w < length self.now.inst.cranes }
        ensures ticks { result ≡ pair_ticks self.now.inst.turn self.now.inst
            (is_sooner self.now.inst self.now.decisions i j) i v j w }
        ensures bound { IfSome result (λ ticks. ticks ≤ MOST_WORK + MOST_DISTANCE) }
    {
        match self.instance().turn() {
            Turn::OneWay => upward_ticks(self.instance(), i, v, j, w),
            Turn::Free => self.clear_ticks(i, v, j, w),
        }
    }

    /// What the cranes of two tasks ask for, where both are assigned.
    #[inline(always)]
    fn crane_ticks(&self, i: u16, j: u16) -> Option<Tick>
        requires first { i < length self.now.inst.tasks }
        requires second { j < length self.now.inst.tasks }
        ensures ticks { result ≡ crane_ticks self.now.inst
            (is_sooner self.now.inst self.now.decisions i j) i j
            (assigned self.now.decisions i) (assigned self.now.decisions j) }
        ensures bound { IfSome result (λ ticks. ticks ≤ MOST_WORK + MOST_DISTANCE) }
    {
        match (self.crane_of(i), self.crane_of(j)) {
            (Some(v), Some(w)) => self.pair_ticks(i, v, j, w),
            _ => None,
        }
    }

    /// What the order of two tasks asks for, whatever their cranes.
    fn sooner_ticks(&self, i: u16, j: u16) -> Option<Tick>
        requires first { i < length self.now.inst.tasks }
        requires second { j < length self.now.inst.tasks }
        ensures ticks { result ≡ sooner_ticks self.now.inst self.now.decisions i j }
        ensures bound { IfSome result (λ ticks. ticks ≤ MOST_WORK + MOST_DISTANCE) }
    {
        if self.is_sooner(i, j) {
            Some(self.instance().task(i).ticks)
        } else {
            None
        }
    }

    /// The time lag that the cranes of `i` and `j` add beyond what the order of the two already
    /// forces; `None` where they add none.
    pub fn forced_by_cranes(&self, i: u16, j: u16) -> Option<Tick>
        requires first { i < length self.now.inst.tasks }
        requires second { j < length self.now.inst.tasks }
        ensures ticks { result ≡ excess (sooner_ticks self.now.inst self.now.decisions i j)
            (crane_ticks self.now.inst (is_sooner self.now.inst self.now.decisions i j) i j
            (assigned self.now.decisions i) (assigned self.now.decisions j)) }
        ensures bound { IfSome result (λ ticks. ticks ≤ MOST_WORK + MOST_DISTANCE) }
    {
        let more = self.crane_ticks(i, j)?;
        excess(self.sooner_ticks(i, j), Some(more))
    }

    /// Whether one of two tasks is forced to start after the other: there is a time lag either way.
    pub fn settled(&self, i: u16, j: u16) -> bool
        requires first { i < length self.now.inst.tasks }
        requires second { j < length self.now.inst.tasks }
        ensures { IsTrue result ↔ IsSettled self.now.inst self.now.decisions i j }
    {
        self.forced(i, j).is_some() || self.forced(j, i).is_some()
    }

    /// When task `j` can start at the least: with its crane, or while it has none with the earliest
    /// crane that reaches it; 0 where none does.
    pub fn lead(&self, j: u16) -> Tick
        requires task { j < length self.now.inst.tasks }
        ensures ticks { result ≡ head self.now.inst self.now.decisions j }
        ensures bound { result ≤ MOST_READY + MOST_DISTANCE }
    {
        let heads = self.heads_of(j);
        match self.crane_of(j) {
            Some(crane) => heads.free[crane as usize],
            None => heads.least,
        }
    }
}
