//! What is to be planned.

ghost use Rattle.std.specs.Prelude.{◌≡◌, ◌↔◌, ◌-◌, ◌*◌, ◌/◌, ◌<◌, ◌≤◌, pos, AllPairs, Contains, IsTrue, length, sum_by};
ghost use Rattle.qc_model.specs.declared.limits.TheConstants.{MOST_CRANES, MOST_ORDERS, MOST_READY, MOST_TASKS, MOST_WORK};
ghost use Rattle.qc_model.specs.Bays.{at_least_zero};
ghost use Rattle.qc_model.specs.Instance.{IsApart, IsBefore, IsEarlier, IsOnRail, Valid, crane, task, with_turn, InstanceView};
ghost use Rattle.qc_model.specs.Nodes.{order_pairs};
ghost use Rattle.qc_model.specs.InstanceFields.{view_of, IsKept};
ghost use Rattle.qc_model.specs.declared.turn.Turn.TheVariants.{OneWay};

use crate::seen::seen_post;
use crate::{Crane, Direction, Pair, Post, Task, Turn};
use qc_num::{Bay, Tick};
use std::marker::Model;

/// What is to be planned: the tasks of a ship, the cranes, and the rules between them.
#[derive(Drop)]
pub struct Instance {
    bays: Bay,
    travel: Tick,
    gap: Bay,
    tasks: Vec<Task>,
    cranes: Vec<Crane>,
    before: Vec<Pair>,
    apart: Vec<Pair>,
    turn: Turn,
}

impl Model for Instance {
    ghost Value = { InstanceView };

    ghost view = { view_of };

    ghost invariant = { IsKept };
}

impl Instance {
    /// An instance of these parts, with cranes that go one way.
    pub fn of(
        bays: Bay,
        travel: Tick,
        gap: Bay,
        tasks: Vec<Task>,
        cranes: Vec<Crane>,
        before: Vec<Pair>,
        apart: Vec<Pair>,
    ) -> Instance
        requires { Valid (record {
          bays = at_least_zero bays;
          travel = travel;
          gap = at_least_zero gap;
          tasks = tasks.items;
          cranes = cranes.items;
          before = before.items;
          apart = apart.items;
          turn = OneWay;
        }) }
        ensures { result ≡ record {
          bays = at_least_zero bays;
          travel = travel;
          gap = at_least_zero gap;
          tasks = tasks.items;
          cranes = cranes.items;
          before = before.items;
          apart = apart.items;
          turn = OneWay;
        } }
    {
        Instance {
            bays,
            travel,
            gap,
            tasks,
            cranes,
            before,
            apart,
            turn: Turn::OneWay,
        }
    }

    /// The same instance with cranes that may go this way.
    pub fn with_turn(mut self, turn: Turn) -> Instance
        ensures { result ≡ with_turn self turn }
    {
        self.turn = turn;
        self
    }

    /// Which way cranes may go.
    pub fn turn(&self) -> Turn
        ensures { result ≡ self.now.turn }
    {
        self.turn
    }

    /// The number of crane bays; with places in decimetres the greatest place.
    pub fn bays(&self) -> Bay
        ensures bays { result ≡ pos self.now.bays }
        ensures valid { Valid self.now }
    {
        self.bays
    }

    /// Ticks of travel per bay.
    pub fn travel(&self) -> Tick
        ensures travel { result ≡ self.now.travel }
        ensures valid { Valid self.now }
    {
        self.travel
    }

    /// How many bays neighbouring cranes are apart at least: the margin and one more.
    pub fn gap(&self) -> Bay
        ensures gap { result ≡ pos self.now.gap }
        ensures valid { Valid self.now }
    {
        self.gap
    }

    /// The tasks in order of hatch and phase.
    pub fn tasks(&self) -> &[Task]
        ensures tasks { result.now ≡ self.now.tasks }
        ensures valid { Valid self.now }
    {
        self.tasks.as_slice()
    }

    /// The cranes along the rail.
    pub fn cranes(&self) -> &[Crane]
        ensures cranes { result.now ≡ self.now.cranes }
        ensures valid { Valid self.now }
    {
        self.cranes.as_slice()
    }

    /// The pairs of which the first task ends before the second starts.
    pub fn before(&self) -> &[Pair]
        ensures before { result.now ≡ self.now.before }
        ensures valid { Valid self.now }
    {
        self.before.as_slice()
    }

    /// The pairs that may not run at the same time.
    pub fn apart(&self) -> &[Pair]
        ensures apart { result.now ≡ self.now.apart }
        ensures valid { Valid self.now }
    {
        self.apart.as_slice()
    }

    /// How many tasks there are.
    pub fn task_count(&self) -> u16
        ensures count { result ≡ length self.now.tasks }
        ensures bound { result ≤ MOST_TASKS }
        ensures valid { Valid self.now }
    {
        self.tasks().len() as u16
    }

    /// How many cranes there are.
    pub fn crane_count(&self) -> u16
        ensures count { result ≡ length self.now.cranes }
        ensures some { 1 ≤ result }
        ensures bound { result ≤ MOST_CRANES }
        ensures valid { Valid self.now }
    {
        self.cranes().len() as u16
    }

    /// How many pairs of tasks may get an order: the apart pairs, and where cranes go as they like all.
    pub fn order_pairs(&self) -> u32
        ensures count { result ≡ order_pairs self.now }
        ensures bound { result ≤ MOST_ORDERS }
        ensures valid { Valid self.now }
    {
        match self.turn {
            Turn::OneWay => self.apart.len() as u32,
            Turn::Free => all_pairs(self.task_count() as u32),
        }
    }

    /// A task by its number, from 0.
    pub fn task(&self, number: u16) -> Task
        requires { number < length self.now.tasks }
        ensures task { result ≡ task self.now number }
        ensures on_rail { IsOnRail result.bay }
        ensures some { 1 ≤ result.ticks }
        ensures bound { result.ticks ≤ MOST_WORK }
        ensures soon { result.release ≤ MOST_READY }
        ensures valid { Valid self.now }
    {
        self.tasks()[number as usize]
    }

    /// A crane by its number, from 0.
    pub fn crane(&self, number: u16) -> &Crane
        requires { number < length self.now.cranes }
        ensures crane { result.now ≡ crane self.now number }
        ensures valid { Valid self.now }
    {
        &self.cranes()[number as usize]
    }

    /// What the rules ask of a crane, by its number.
    pub fn post(&self, number: u16) -> Post
        requires { number < length self.now.cranes }
        ensures ready { result.ready ≡ (crane self.now number).ready }
        ensures bay { result.bay ≡ (crane self.now number).bay }
        ensures from { result.from ≡ (crane self.now number).from }
        ensures to { result.to ≡ (crane self.now number).to }
        ensures soon { result.ready ≤ MOST_READY }
        ensures on_rail { IsOnRail result.bay }
        ensures valid { Valid self.now }
    {
        seen_post(self, Direction::Up, self.crane(number))
    }

    /// The length of all tasks together, in ticks.
    pub fn work(&self) -> Tick
        ensures ticks { result ≡ sum_by (λ t. t.ticks) self.now.tasks }
        ensures bound { result ≤ MOST_WORK }
    {
        self.tasks().iter().map(|task| task.ticks).sum()
    }

    /// Whether one task must end before another starts.
    pub fn is_before(&self, first: u16, second: u16) -> bool
        ensures { IsTrue result ↔ IsBefore self.now first second }
    {
        holds(self.before.as_slice(), Pair { first, second })
    }

    /// Whether two tasks, the lower first, may not run at the same time.
    pub fn is_apart(&self, first: u16, second: u16) -> bool
        ensures { IsTrue result ↔ IsApart self.now first second }
    {
        holds(self.apart.as_slice(), Pair { first, second })
    }
}

/// How many pairs so many tasks make.
fn all_pairs(tasks: u32) -> u32
    requires { tasks ≤ MOST_TASKS }
    ensures count { result ≡ tasks * (tasks - 1) / 2 }
    ensures bound { result ≤ MOST_ORDERS }
{
    tasks * tasks.saturating_sub(1) / 2
}

/// Whether a list of pairs in order has a pair.
fn holds(pairs: &[Pair], pair: Pair) -> bool
    requires { AllPairs IsEarlier pairs.now }
    ensures { IsTrue result ↔ Contains pairs.now pair }
{
    pairs.binary_search(&pair).is_ok()
}
