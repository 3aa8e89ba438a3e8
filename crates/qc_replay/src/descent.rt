//! The way through a part of a tree, node by node.
ghost use Rattle.std.specs.Prelude.{◌≡◌, ◌<◌, ◌++◌, ◌∷◌, [], IfOk, None, drop, length, map, true};
ghost use Rattle.qc_close.specs.Crews.{IsCrewOf};
ghost use Rattle.qc_close.specs.Model.{Assign, Order, Valid, crane_numbers, Conflicts, IsSettled, assigned};
ghost use Rattle.qc_dist.specs.Children.{behind};
ghost use Rattle.qc_replay.specs.Crewed.{WereOpen};
ghost use Rattle.qc_replay.specs.Earliest.{HasEarly};
ghost use Rattle.qc_replay.specs.Part.{nodes, Standing, standing_of};

use crate::crewed_node::CrewedNode;
use crate::earliest::EarlyStarts;
use qc_close::Crew;
use qc_dist::{Decisions, next_child};
use qc_model::{Decision, Instance};
use qc_num::OutOfMemory;
use std::alloc::Global;
use std::marker::Model;

/// Where the reading of a part stands: the decisions of the next node, as long as one must come. The
/// branchings on the way to it are these decisions, so no other list is kept. All memory is taken by
/// `new`.
pub(crate) struct Descent {
    node: CrewedNode,
    live: bool,
}

impl Model for Descent {
    ghost Value = { Standing };

    ghost view = { standing_of };
}

// By hand, so that it is let go by one call wherever it is held.
impl Drop for Descent {
    fn drop(self) {
        let Descent { node: _, live: _ } = self;
    }
}

impl Descent {
    /// At the root of a part of the instance.
    pub(crate) fn new(alloc: Global, inst: &Instance) -> Result<Descent, OutOfMemory>
        ensures { IfOk result (λ new. new ≡ record { inst = inst.now; decisions = []; live = true }) }
    {
        Ok(Descent {
            node: CrewedNode::new(alloc, inst)?,
            live: true,
        })
    }

    /// Whether a node must still come.
    pub(crate) fn is_live(&self) -> bool
        ensures { result ≡ self.now.live }
    {
        self.live
    }

    /// The decisions of the next node.
    pub(crate) fn node(&self) -> &Decisions
        ensures node { result.now ≡ record { inst = self.now.inst; decisions = self.now.decisions } }
        ensures were_open { WereOpen self.now.inst self.now.decisions }
    {
        self.node.node()
    }

    /// Which crane each task has at the next node.
    pub(crate) fn crew(&self) -> &Crew
        ensures { IsCrewOf result.now self.now.inst self.now.decisions }
    {
        self.node.crew()
    }

    /// The least starts of the next node, where cranes go as they like.
    pub(crate) fn begun(&self) -> &Option<EarlyStarts>
        ensures { HasEarly self.now.inst.turn self.now.inst self.now.decisions result.now }
    {
        self.node.begun()
    }

    /// The next node branches on the crane of a task.
    pub(crate) fn on_task(&mut self, task: u16)
        requires valid { Valid self.old.inst }
        requires live { self.old.live ≡ true }
        requires task { task < length self.old.inst.tasks }
        requires none { assigned self.old.decisions task ≡ None }
        ensures inst { self.new.inst ≡ self.old.inst }
        ensures nodes { nodes self.new
            ≡ map (λ k. Assign task k ∷ self.old.decisions) (crane_numbers self.old.inst)
            ++ drop 1 (nodes self.old) }
    {
        self.node.add(Decision::Assign(task, 0));
    }

    /// The next node branches on the order of two tasks that conflict, the lower first.
    pub(crate) fn on_pair(&mut self, first: u16, second: u16)
        requires live { self.old.live ≡ true }
        requires low { first < second }
        requires conflict { Conflicts self.old.inst self.old.decisions first second }
        requires unsettled { ¬ IsSettled self.old.inst self.old.decisions first second }
        ensures inst { self.new.inst ≡ self.old.inst }
        ensures nodes { nodes self.new ≡ (Order first second ∷ self.old.decisions)
            ∷ (Order second first ∷ self.old.decisions) ∷ drop 1 (nodes self.old) }
    {
        self.node.add(Decision::Order(first, second));
    }

    /// The next node is a leaf.
    pub(crate) fn leave(&mut self)
        requires live { self.old.live ≡ true }
        ensures inst { self.new.inst ≡ self.old.inst }
        ensures nodes { nodes self.new ≡ drop 1 (nodes self.old) }
    {
        self.live = climb(&mut self.node);
    }
}

/// Takes decisions back up to the newest branching with a child that is left, and goes to that child;
/// whether there was one.
fn climb(node: &mut CrewedNode) -> bool
    ensures inst { node.new.inst ≡ node.old.inst }
    ensures nodes { nodes (record { inst = node.old.inst; decisions = node.new.decisions; live = result })
        ≡ behind node.old.inst node.old.decisions }
{
    while let Some(decision) = node.undo() {
        if let Some(next) = next_child(node.instance(), decision) {
            node.add(next);
            return true;
        }
    }
    false
}
