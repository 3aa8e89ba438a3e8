//! The earliest start times of a search node, kept while decisions are made and taken back.

ghost use Rattle.std.specs.Prelude.{◌≡◌, ◌↔◌, ◌+◌, ◌*◌, ◌<◌, ◌≤◌, None, [], ◌∷◌, IfOk, IfSome, IsTrue, MatchOption, drop, length};
ghost use Rattle.qc_model.specs.declared.decision.Decision.TheVariants.{Assign, Order};
ghost use Rattle.qc_model.specs.declared.limits.TheConstants.{MOST_DISTANCE, MOST_READY, MOST_START, MOST_TASKS, MOST_WORK};
ghost use Rattle.qc_model.specs.declared.turn.Turn.TheVariants.{Free};
ghost use Rattle.qc_model.specs.Instance.{Valid};
ghost use Rattle.qc_model.specs.Nodes.{Conflicts, Fits, HasStarts, IsComplete, IsInReach, IsNodeEnd, IsSettled, assigned, head, reaches};
ghost use Rattle.qc_num.specs.Paths.{HasRoom};
ghost use Rattle.qc_starts.specs.Opened.{AreSized};
ghost use Rattle.qc_starts.specs.NodeArcs.{IsSound};
ghost use Rattle.qc_starts.specs.Roots.{root_of};
ghost use Rattle.qc_starts.specs.Overlaps.{IsOverlap};
ghost use Rattle.qc_starts.specs.Seen.{AreAssigned, HasNone, HoldsForced, IsCycle, IsNodeStart, IsReached, IsStep, IsWhy, first_of};
ghost use Rattle.qc_starts.specs.Values.{AreRest};
ghost use Rattle.qc_starts.specs.Fields.{node_of, IsKept};
ghost use Rattle.qc_dist.specs.Node.{IsOpen, Node, newest};

use crate::complete::{are_assigned, are_settled};
use crate::latest::latest;
use crate::network::Network;
use crate::overlap::{first_overlap, has_overlap};
use crate::spread::Spread;
use crate::step::Step;
use crate::walk::{chain_to, ring_behind};
use qc_arena::ArcArena;
use qc_model::{Decision, Instance, Pair, Turn};
use qc_num::{Bound, OutOfMemory, Path, Tick};
use std::alloc::Global;
use std::marker::Model;

/// The task behind which a decision raises starts.
fn root_of(decision: Decision) -> u16
    ensures { result ≡ root_of decision }
{
    match decision {
        Decision::Assign(task, _) => task,
        Decision::Order(_, second) => second,
    }
}

/// The earliest start times of a search node: of a list of decisions, and of the instance that they are
/// made for. Where no starts meet the node it is stuck, until decisions are taken back. A decision
/// costs what it changes, and so does taking it back. All memory is taken by `open`.
pub struct Starts {
    network: Network,
    spread: Spread,
    /// How many notes there were before each decision.
    marks: Vec<u32>,
    /// What was found for the decisions.
    step: Step,
    /// The task behind which the newest decision raised starts.
    root: u16,
}

impl Model for Starts {
    ghost Value = { Node };

    ghost view = { node_of };

    ghost invariant = { IsKept };
}

// By hand, so that it is let go by one call wherever it is held.
impl Drop for Starts {
    fn drop(self) {
        let Starts {
            network: _,
            spread: _,
            marks: _,
            step: _,
            root: _,
        } = self;
    }
}

/// The starts before any decision.
fn open_spread(alloc: Global, network: &Network) -> Result<Spread, OutOfMemory>
    requires sound { IsSound network.now }
    requires none { network.now.decisions ≡ [] }
    ensures rest { IfOk result (λ spread. AreRest network.now.inst [] spread.values.cells) }
    ensures sized { IfOk result (AreSized network.now.inst) }
    ensures notes { IfOk result (λ spread. spread.values.trail.notes ≡ []) }
{
    let count = network.task_count();
    let room = count as u32 + network.instance().order_pairs();
    let mut spread = Spread::open(alloc, count, room)?;
    spread.place_all(network);
    Ok(spread)
}

impl Starts {
    /// No decision for the instance.
    pub fn open(alloc: Global, inst: &Instance) -> Result<Starts, OutOfMemory>
        ensures inst { IfOk result (λ node. node.inst ≡ inst.now) }
        ensures decisions { IfOk result (λ node. node.decisions ≡ []) }
    {
        let room = inst.task_count() as usize + inst.order_pairs() as usize;
        let marks = Vec::with_capacity(alloc, room)?;
        let network = Network::open(alloc, inst)?;
        let spread = open_spread(alloc, &network)?;
        Ok(Starts {
            network,
            spread,
            marks,
            step: Step::Raised,
            root: 0,
        })
    }

    /// The instance.
    pub fn instance(&self) -> &Instance
        ensures same { result.now ≡ self.now.inst }
        ensures valid { Valid self.now.inst }
    {
        self.network.instance()
    }

    /// Goes to the child of this decision. `Cycle` exactly where no starts meet the node any more.
    pub fn go(&mut self, decision: Decision) -> Step
        requires starts { HasStarts self.old.inst self.old.decisions }
        requires open { IsOpen self.old.inst self.old.decisions decision }
        requires reached { IsReached self.old.inst decision }
        ensures inst { self.new.inst ≡ self.old.inst }
        ensures decisions { self.new.decisions ≡ decision ∷ self.old.decisions }
        ensures step { IsStep self.old.inst self.new.decisions result }
    {
        let mark = self.spread.values.trail.mark();
        self.network.add(decision);
        self.marks.push_reserved(mark);
        self.root = root_of(decision);
        self.spread.begin(self.root);
        self.step = self.spread.settle(&self.network, self.root);
        self.step
    }

    /// Puts a task on a crane that reaches it. `Cycle` exactly where no starts meet the node any more.
    pub fn assign(&mut self, task: u16, crane: u16) -> Step
        requires starts { HasStarts self.old.inst self.old.decisions }
        requires task { task < length self.old.inst.tasks }
        requires crane { crane < length self.old.inst.cranes }
        requires none { assigned self.old.decisions task ≡ None }
        requires reach { IsTrue (reaches self.old.inst task crane) }
        ensures inst { self.new.inst ≡ self.old.inst }
        ensures decisions { self.new.decisions ≡ Assign task crane ∷ self.old.decisions }
        ensures step { IsStep self.old.inst self.new.decisions result }
    {
        self.go(Decision::Assign(task, crane))
    }

    /// Puts one of two tasks that conflict first. `Cycle` exactly where no starts meet the node any more.
    pub fn order(&mut self, i: u16, j: u16) -> Step
        requires starts { HasStarts self.old.inst self.old.decisions }
        requires conflict { Conflicts self.old.inst self.old.decisions i j }
        requires unsettled { ¬ IsSettled self.old.inst self.old.decisions i j }
        ensures inst { self.new.inst ≡ self.old.inst }
        ensures decisions { self.new.decisions ≡ Order i j ∷ self.old.decisions }
        ensures step { IsStep self.old.inst self.new.decisions result }
    {
        self.go(Decision::Order(i, j))
    }

    /// Whether no starts meet the node.
    pub fn stuck(&self) -> bool
        ensures none { HasNone self.now.inst self.now.decisions result }
        ensures fits { Fits self.now.inst self.now.decisions }
        ensures in_reach { IsInReach self.now.inst self.now.decisions }
    {
        match self.step {
            Step::Raised => false,
            Step::Cycle => true,
        }
    }

    /// The number of decisions.
    pub fn mark(&self) -> u32
        ensures { result ≡ length self.now.decisions }
    {
        self.network.made()
    }

    /// The newest decision; `None` where there is none.
    pub fn newest(&self) -> Option<Decision>
        ensures { result ≡ newest self.now.decisions }
    {
        self.network.decisions().newest()
    }

    /// Takes back the newest decision.
    fn take_back(&mut self)
        requires { 0 < length self.old.decisions }
        ensures inst { self.new.inst ≡ self.old.inst }
        ensures decisions { self.new.decisions ≡ drop 1 self.old.decisions }
    {
        let Some(mark) = self.marks.pop() else {
            unreachable!();
        };
        self.network.undo();
        self.spread.values.back(mark);
        self.step = Step::Raised;
    }

    /// Takes back all decisions but the first `mark`.
    pub fn retract(&mut self, mark: u32)
        requires { mark ≤ length self.old.decisions }
        ensures inst { self.new.inst ≡ self.old.inst }
        ensures decisions { self.new.decisions ≡ first_of mark self.old.decisions }
    {
        for _ in mark..self.mark() {
            self.take_back();
        }
    }

    /// The earliest start time of a task, in ticks.
    pub fn start(&self, j: u16) -> Tick
        requires starts { HasStarts self.now.inst self.now.decisions }
        requires task { j < length self.now.inst.tasks }
        ensures start { IsNodeStart self.now.inst self.now.decisions j result }
        ensures bound { result ≤ MOST_START }
        ensures soon { result + (MOST_TASKS * MOST_WORK + MOST_DISTANCE) ≤ MOST_START }
    {
        self.spread.values.start(j)
    }

    /// When the last task ends, if all start as early as they can; 0 where there is no task.
    pub fn ends(&self) -> Tick
        requires { HasStarts self.now.inst self.now.decisions }
        ensures end { IsNodeEnd self.now.inst self.now.decisions result }
        ensures bound { result ≤ MOST_START }
    {
        latest(&self.network, &self.spread.values).end
    }

    /// The crane of a task; `None` exactly where it has none.
    pub fn crane_of(&self, j: u16) -> Option<u16>
        requires { j < length self.now.inst.tasks }
        ensures crane { result ≡ assigned self.now.decisions j }
        ensures range { IfSome result (λ crane. crane < length self.now.inst.cranes) }
    {
        self.network.decisions().crane_of(j)
    }

    /// When a task can start at the least: with its crane, or while it has none with the earliest
    /// crane that reaches it.
    pub fn lead(&self, j: u16) -> Tick
        requires { j < length self.now.inst.tasks }
        ensures ticks { result ≡ head self.now.inst self.now.decisions j }
        ensures bound { result ≤ MOST_READY + MOST_DISTANCE }
    {
        self.network.decisions().lead(j)
    }

    /// Whether nothing is left to decide: all tasks have a crane, and where cranes go one way all apart pairs are
    /// settled, or else the earliest starts are a feasible schedule.
    pub fn complete(&self) -> bool
        ensures { IsTrue result ↔ IsComplete self.now.inst self.now.decisions }
    {
        are_assigned(self.network.decisions()) && self.settles()
    }

    /// Whether nothing is left to decide, where all tasks have a crane.
    fn settles(&self) -> bool
        requires { AreAssigned self.now.inst self.now.decisions }
        ensures { IsTrue result ↔ IsComplete self.now.inst self.now.decisions }
    {
        match self.instance().turn() {
            Turn::OneWay => are_settled(self.network.decisions()),
            Turn::Free => self.starts_feasibly(),
        }
    }

    /// Whether the earliest starts are a feasible schedule, where all tasks have a crane and cranes go as
    /// they like.
    fn starts_feasibly(&self) -> bool
        requires free { self.now.inst.turn ≡ Free }
        requires assigned { AreAssigned self.now.inst self.now.decisions }
        ensures { IsTrue result ↔ IsComplete self.now.inst self.now.decisions }
    {
        if self.stuck() {
            return false;
        }
        !has_overlap(&self.network, &self.spread.values)
    }

    /// Two tasks whose order is open and that overlap in the earliest starts, where all tasks have a crane
    /// and cranes go as they like; `None` exactly where nothing is left to decide. Where there are several
    /// such pairs, one of which both orders leave no end before the best one comes first, then one of which
    /// one does; of these the one that overlaps first.
    pub fn overlap(&self, best: Bound) -> Option<Pair>
        requires free { self.now.inst.turn ≡ Free }
        requires starts { HasStarts self.now.inst self.now.decisions }
        requires assigned { AreAssigned self.now.inst self.now.decisions }
        ensures { MatchOption result
            (IsComplete self.now.inst self.now.decisions)
            (λ pair. IsOverlap self.now.inst self.now.decisions pair.first pair.second) }
    {
        first_overlap(&self.network, &self.spread.values, best)
    }

    /// Whether the order of two tasks may be decided: they are apart, or clash on their cranes.
    pub fn conflict(&self, i: u16, j: u16) -> bool
        requires first { i < length self.now.inst.tasks }
        requires second { j < length self.now.inst.tasks }
        ensures { IsTrue result ↔ Conflicts self.now.inst self.now.decisions i j }
    {
        self.network.decisions().conflict(i, j)
    }

    /// Whether one of two tasks is forced to start after the other.
    pub fn settled(&self, i: u16, j: u16) -> bool
        requires first { i < length self.now.inst.tasks }
        requires second { j < length self.now.inst.tasks }
        ensures { IsTrue result ↔ IsSettled self.now.inst self.now.decisions i j }
    {
        self.network.decisions().settled(i, j)
    }

    /// The arcs between the tasks: from one to another where the second is forced to start after the
    /// first, the newest of them as long as is forced.
    pub fn arcs(&self) -> &ArcArena
        ensures { HoldsForced self.now.inst self.now.decisions result.now }
    {
        self.network.arena()
    }

    /// Writes a critical chain: tasks, each forced after the one before it, that end when the node
    /// does; an empty one where there is no task.
    pub fn why_path(&self, path: &mut Path)
        requires starts { HasStarts self.now.inst self.now.decisions }
        requires room { HasRoom (length self.now.inst.tasks) path.old }
        ensures why { IsWhy self.now.inst self.now.decisions path.new.items }
        ensures count { length path.new.items ≤ length self.now.inst.tasks }
        ensures room { path.new.capacity ≡ path.old.capacity }
    {
        match latest(&self.network, &self.spread.values).task {
            None => path.clear(),
            Some(last) => chain_to(&self.spread.values, self.network.task_count(), last, path),
        }
    }

    /// Writes a ring of tasks, each forced after the one before it, and the first after the last.
    pub fn cycle(&self, path: &mut Path)
        requires stuck { ¬ HasStarts self.now.inst self.now.decisions }
        requires room { HasRoom (length self.now.inst.tasks) path.old }
        ensures ring { IsCycle self.now.inst self.now.decisions path.new.items }
        ensures count { length path.new.items ≤ length self.now.inst.tasks }
        ensures room { path.new.capacity ≡ path.old.capacity }
    {
        ring_behind(
            &self.spread.values,
            self.network.task_count(),
            self.root,
            path,
        );
    }
}
