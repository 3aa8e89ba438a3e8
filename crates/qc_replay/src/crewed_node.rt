//! A node of a part, and the crane that each task has there.
ghost use Rattle.std.specs.Prelude.{◌≡◌, ◌∷◌, [], IfOk, IfSome, MatchOption};
ghost use Rattle.qc_close.specs.Crews.{IsCrewOf};
ghost use Rattle.qc_dist.specs.Node.{IsOpen, Node};
ghost use Rattle.qc_model.specs.Instance.{Valid};
ghost use Rattle.qc_replay.specs.Crewed.{IsCrewed, WereOpen, node_of};
ghost use Rattle.qc_replay.specs.Earliest.{HasEarly};

use crate::earliest::{EarlyStarts, begun_less, begun_more, early_first};
use qc_close::Crew;
use qc_dist::Decisions;
use qc_model::{Decision, Instance};
use qc_num::OutOfMemory;
use std::alloc::Global;
use std::marker::Model;

/// The decisions of a node, and the crew that they give; where cranes go as they like, its least starts
/// too. All memory is taken by `new`.
#[derive(Drop)]
pub(crate) struct CrewedNode {
    node: Decisions,
    crew: Crew,
    begun: Option<EarlyStarts>,
}

impl Model for CrewedNode {
    ghost Value = { Node };

    ghost view = { node_of };

    ghost invariant = { IsCrewed };
}

impl CrewedNode {
    /// The root of a part of the instance.
    pub(crate) fn new(alloc: Global, inst: &Instance) -> Result<CrewedNode, OutOfMemory>
        ensures { IfOk result (λ new. new ≡ record { inst = inst.now; decisions = [] }) }
    {
        let node = Decisions::new(alloc, inst)?;
        let Ok(crew) = Crew::open(alloc, inst, inst.turn()) else {
            drop(node); // by name: proved faster
            return Err(OutOfMemory);
        };
        let Ok(begun) = early_first(alloc, inst) else {
            drop(crew); // by name: proved faster
            drop(node);
            return Err(OutOfMemory);
        };
        Ok(CrewedNode { node, crew, begun })
    }

    /// The instance.
    pub(crate) fn instance(&self) -> &Instance
        ensures same { result.now ≡ self.now.inst }
        ensures valid { Valid self.now.inst }
    {
        self.node.instance()
    }

    /// The decisions.
    pub(crate) fn node(&self) -> &Decisions
        ensures same { result.now ≡ self.now }
        ensures were_open { WereOpen self.now.inst self.now.decisions }
    {
        &self.node
    }

    /// Which crane each task has.
    pub(crate) fn crew(&self) -> &Crew
        ensures { IsCrewOf result.now self.now.inst self.now.decisions }
    {
        &self.crew
    }

    /// The least starts, where cranes go as they like.
    pub(crate) fn begun(&self) -> &Option<EarlyStarts>
        ensures { HasEarly self.now.inst.turn self.now.inst self.now.decisions result.now }
    {
        &self.begun
    }

    /// Decides one thing more.
    pub(crate) fn add(&mut self, decision: Decision)
        requires { IsOpen self.old.inst self.old.decisions decision }
        ensures { self.new ≡ record self.old { decisions = decision ∷ self.old.decisions } }
    {
        begun_more(&mut self.begun, &self.node, decision);
        self.node.add(decision);
        match decision {
            Decision::Assign(task, crane) => self.crew.put(task, crane),
            Decision::Order(..) => {}
        }
    }

    /// Takes the newest decision back, and gives it; `None` exactly where there is none.
    pub(crate) fn undo(&mut self) -> Option<Decision>
        ensures undone { MatchOption result
            ((self.old.decisions ≡ []) × (self.new ≡ self.old))
            (λ decision. self.old ≡ record self.new {
              decisions = decision ∷ self.new.decisions;
            }) }
        ensures was_open { IfSome result (IsOpen self.new.inst self.new.decisions) }
    {
        let decision = self.node.undo()?;
        begun_less(&mut self.begun, &self.node);
        match decision {
            Decision::Assign(task, _) => {
                self.crew.take(task);
                Some(decision)
            }
            Decision::Order(..) => Some(decision),
        }
    }
}
