//! From when the tasks of a node can start, each by itself.
ghost use Rattle.std.specs.Prelude.{◌≡◌, ◌↔◌, ◌+◌, ◌<◌, ◌≤◌, ◌∷◌, [], List, All, IfOk, IfSome, IsTrue, length, map, option_map};
ghost use Rattle.qc_dist.specs.Node.{IsOpen};
ghost use Rattle.qc_close.specs.Model.{Decision, early, least_starts, HasStarts, head, least, most_distance, most_ready, most_start};
ghost use Rattle.qc_replay.specs.Crewed.{WereOpen};
ghost use Rattle.qc_replay.specs.Earliest.{AreEarly, HasEarly, IsEnded, IsFirstStart, start_in};
ghost use Rattle.qc_starts.specs.Seen.{IsReached};

use qc_dist::{Decisions, in_reach};
use qc_model::{Decision, Instance, Turn};
use qc_num::{OutOfMemory, Tick, lesser};
use qc_starts::Starts;
use std::alloc::Global;

/// The least starts of decisions, as long as each is in reach and some starts meet them; of the decisions
/// past that only the number is kept.
#[derive(Drop)]
pub(crate) struct EarlyStarts {
    starts: Starts,
    past: u32,
}

/// Whether a decision puts no task out of its crane's reach.
fn is_reached(inst: &Instance, decision: Decision) -> bool
    requires open { (ds : List Decision) × IsOpen inst.now ds decision }
    ensures { IsTrue result ↔ IsReached inst.now decision }
{
    match decision {
        Decision::Assign(task, crane) => in_reach(inst, task, crane),
        Decision::Order(..) => true,
    }
}

impl EarlyStarts {
    /// Nothing is decided.
    fn open(alloc: Global, inst: &Instance) -> Result<EarlyStarts, OutOfMemory>
        ensures { IfOk result (AreEarly inst.now []) }
    {
        Ok(EarlyStarts {
            starts: Starts::open(alloc, inst)?,
            past: 0,
        })
    }

    /// Whether there are no least starts: one decision is out of reach, or no starts meet them.
    fn are_none(&self) -> bool
        ensures { IsEnded self.now result }
    {
        self.past > 0 || self.starts.stuck()
    }

    /// Decides one thing more at a node.
    fn add(&mut self, node: &Decisions, decision: Decision)
        requires are { AreEarly node.now.inst node.now.decisions self.old }
        requires were_open { WereOpen node.now.inst node.now.decisions }
        requires open { IsOpen node.now.inst node.now.decisions decision }
        ensures { AreEarly node.now.inst (decision ∷ node.now.decisions) self.new }
    {
        let inst = node.instance();
        if self.are_none() {
            self.past += 1;
            return;
        }
        if !is_reached(inst, decision) {
            self.past += 1;
            return;
        }
        self.starts.go(decision);
    }

    /// Takes the newest decision back, which leaves the node.
    fn undo(&mut self, node: &Decisions)
        requires { (d : Decision) × AreEarly node.now.inst (d ∷ node.now.decisions) self.old }
        ensures { (d : Decision) → AreEarly node.now.inst (d ∷ node.now.decisions) self.old
            → AreEarly node.now.inst node.now.decisions self.new }
    {
        if self.past > 0 {
            self.past -= 1;
            return;
        }
        let made = self.starts.mark();
        self.starts.retract(made - 1);
    }

    /// The least start of the first of some tasks.
    fn first_start(&self, tasks: &[u16]) -> Tick
        requires starts { HasStarts self.now.starts.inst self.now.starts.decisions }
        requires tasks { All (λ j. j < length self.now.starts.inst.tasks) tasks.now }
        requires some { 0 < length tasks.now }
        ensures first { IsFirstStart self.now.starts.inst self.now.starts.decisions tasks.now result }
        ensures bound { result ≤ most_start }
    {
        let mut least: Option<Tick> = None;
        for task in tasks {
            least = Some(lesser(least, self.starts.start(*task)));
        }
        least.unwrap_or(0)
    }

    /// The least start of the first of some tasks of a node; `None` exactly where the node has no least
    /// starts.
    fn first_at(&self, node: &Decisions, tasks: &[u16]) -> Option<Tick>
        requires are { AreEarly node.now.inst node.now.decisions self.now }
        requires tasks { All (λ j. j < length node.now.inst.tasks) tasks.now }
        requires some { 0 < length tasks.now }
        ensures first { result ≡ option_map (λ starts. least (map (start_in starts) tasks.now))
            (least_starts node.now.inst node.now.decisions) }
        ensures bound { IfSome result (λ tick. tick ≤ most_start) }
    {
        let _inst = node.instance(); // for what it ensures
        if self.are_none() {
            None
        } else {
            Some(self.first_start(tasks))
        }
    }
}

/// The least starts of the root of a part, where cranes go as they like.
pub(crate) fn early_first(
    alloc: Global,
    inst: &Instance,
) -> Result<Option<EarlyStarts>, OutOfMemory>
    ensures { IfOk result (HasEarly inst.now.turn inst.now []) }
{
    match inst.turn() {
        Turn::OneWay => Ok(None),
        Turn::Free => {
            let starts = EarlyStarts::open(alloc, inst)?;
            Ok(Some(starts))
        }
    }
}

/// Decides one thing more at a node.
pub(crate) fn begun_more(begun: &mut Option<EarlyStarts>, node: &Decisions, decision: Decision)
    requires begun { HasEarly node.now.inst.turn node.now.inst node.now.decisions begun.old }
    requires were_open { WereOpen node.now.inst node.now.decisions }
    requires open { IsOpen node.now.inst node.now.decisions decision }
    ensures { HasEarly node.now.inst.turn node.now.inst (decision ∷ node.now.decisions) begun.new }
{
    match begun {
        None => {}
        Some(starts) => starts.add(node, decision),
    }
}

/// Takes the newest decision back, which leaves the node.
pub(crate) fn begun_less(begun: &mut Option<EarlyStarts>, node: &Decisions)
    requires { (d : Decision)
        × HasEarly node.now.inst.turn node.now.inst (d ∷ node.now.decisions) begun.old }
    ensures { (d : Decision) → HasEarly node.now.inst.turn node.now.inst (d ∷ node.now.decisions) begun.old
        → HasEarly node.now.inst.turn node.now.inst node.now.decisions begun.new }
{
    match begun {
        None => {}
        Some(starts) => starts.undo(node),
    }
}

/// When the first of some tasks can start at the least, by their heads.
fn least_lead(node: &Decisions, tasks: &[u16]) -> Tick
    requires tasks { All (λ j. j < length node.now.inst.tasks) tasks.now }
    ensures least { result ≡ least (map (head node.now.inst node.now.decisions) tasks.now) }
    ensures bound { result ≤ most_ready + most_distance }
{
    let mut least: Option<Tick> = None;
    for task in tasks {
        least = Some(lesser(least, node.lead(*task)));
    }
    least.unwrap_or(0)
}

/// When the first of some tasks can start at the least: where cranes go one way by their heads, and else
/// by their least starts. `None` exactly where the node has none.
pub(crate) fn least_begin(
    node: &Decisions,
    begun: &Option<EarlyStarts>,
    tasks: &[u16],
) -> Option<Tick>
    requires begun { HasEarly node.now.inst.turn node.now.inst node.now.decisions begun.now }
    requires tasks { All (λ j. j < length node.now.inst.tasks) tasks.now }
    requires some { 0 < length tasks.now }
    ensures least { result ≡ option_map (λ begins. least (map begins tasks.now))
        (early node.now.inst node.now.decisions) }
    ensures bound { IfSome result (λ tick. tick ≤ most_start) }
{
    match begun {
        None => Some(least_lead(node, tasks)),
        Some(starts) => starts.first_at(node, tasks),
    }
}
