//! The decisions of a node, with the arcs between its tasks.

ghost use Rattle.std.specs.Prelude.{◌≡◌, ◌-◌, ◌<◌, ◌≤◌, [], ◌∷◌, IfOk, drop, length, reverse};
ghost use Rattle.qc_model.specs.declared.limits.TheConstants.{MOST_TASKS};
ghost use Rattle.qc_model.specs.Instance.{Valid};
ghost use Rattle.qc_model.specs.Nodes.{Fits};
ghost use Rattle.qc_dist.specs.Node.{IsOpen};
ghost use Rattle.qc_starts.specs.NodeArcs.{IsSound, NodeArcs};
ghost use Rattle.qc_starts.specs.Network.{IsKept, node_of};

use crate::arcs::{decide, open_arena};
use qc_arena::ArcArena;
use qc_dist::Decisions;
use qc_model::{Decision, Instance};
use qc_num::OutOfMemory;
use std::alloc::Global;
use std::marker::Model;

/// Takes the newest arcs away until so many are left.
fn pop_to(arena: &mut ArcArena, mark: u32)
    requires { mark ≤ length arena.old.arcs }
    ensures arcs { reverse arena.new.arcs
        ≡ drop (length (reverse arena.old.arcs) - mark) (reverse arena.old.arcs) }
    ensures nodes { arena.new.nodes ≡ arena.old.nodes }
    ensures cap { arena.new.cap ≡ arena.old.cap }
{
    while arena.len() > mark {
        let _ = arena.pop();
    }
}

/// The decisions of a node and the arcs between its tasks: from one task to another where the second
/// is forced to start after the first, the newest of them as long as is forced.
#[derive(Drop)]
pub(crate) struct Network {
    decisions: Decisions,
    arena: ArcArena,
    /// How many arcs there were before each decision.
    marks: Vec<u32>,
}

impl Model for Network {
    ghost Value = { NodeArcs };

    ghost view = { node_of };

    ghost invariant = { IsKept };
}

impl Network {
    /// No decision for the instance, and room for all.
    pub(crate) fn open(alloc: Global, inst: &Instance) -> Result<Network, OutOfMemory>
        ensures inst { IfOk result (λ network. network.inst ≡ inst.now) }
        ensures decisions { IfOk result (λ network. network.decisions ≡ []) }
        ensures sound { IfOk result IsSound }
    {
        let decisions = Decisions::new(alloc, inst)?;
        let arena = open_arena(alloc, &decisions)?;
        let room = inst.task_count() as usize + inst.order_pairs() as usize;
        Ok(Network {
            decisions,
            arena,
            marks: Vec::with_capacity(alloc, room)?,
        })
    }

    /// Decides one thing more.
    pub(crate) fn add(&mut self, decision: Decision)
        requires { IsOpen self.old.inst self.old.decisions decision }
        ensures inst { self.new.inst ≡ self.old.inst }
        ensures decisions { self.new.decisions ≡ decision ∷ self.old.decisions }
        ensures sound { IsSound self.new }
    {
        let mark = self.arena.len();
        decide(&mut self.decisions, decision, &mut self.arena);
        self.marks.push_reserved(mark);
    }

    /// Takes the newest decision back.
    pub(crate) fn undo(&mut self)
        requires { 0 < length self.old.decisions }
        ensures inst { self.new.inst ≡ self.old.inst }
        ensures decisions { self.new.decisions ≡ drop 1 self.old.decisions }
        ensures sound { IsSound self.new }
    {
        let _ = self.decisions.undo();
        let Some(mark) = self.marks.pop() else {
            unreachable!();
        };
        pop_to(&mut self.arena, mark);
    }

    /// How many decisions there are.
    pub(crate) fn made(&self) -> u32
        ensures { result ≡ length self.now.decisions }
    {
        self.marks.len() as u32
    }

    /// The instance.
    pub(crate) fn instance(&self) -> &Instance
        ensures same { result.now ≡ self.now.inst }
        ensures valid { Valid self.now.inst }
    {
        self.decisions.instance()
    }

    /// How many tasks there are.
    pub(crate) fn task_count(&self) -> u16
        ensures count { result ≡ length self.now.inst.tasks }
        ensures bound { result ≤ MOST_TASKS }
    {
        self.instance().task_count()
    }

    /// The decisions.
    pub(crate) fn decisions(&self) -> &Decisions
        ensures node { result.now ≡ record { inst = self.now.inst; decisions = self.now.decisions } }
        ensures fits { Fits self.now.inst self.now.decisions }
        ensures valid { Valid self.now.inst }
    {
        &self.decisions
    }

    /// The arcs.
    pub(crate) fn arena(&self) -> &ArcArena
        ensures arcs { reverse result.now.arcs ≡ self.now.arcs }
        ensures nodes { result.now.nodes ≡ length self.now.inst.tasks }
        ensures sound { IsSound self.now }
    {
        &self.arena
    }
}
