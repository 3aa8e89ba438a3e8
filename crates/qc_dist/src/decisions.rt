//! The decisions of a search node, with tables beside them.

ghost use Rattle.std.specs.Prelude.{◌≡◌, ◌<◌, None, [], ◌∷◌, IfOk, IfSome, MatchOption, length};
ghost use Rattle.qc_model.specs.declared.decision.Decision.TheVariants.{Assign, Order};
ghost use Rattle.qc_model.specs.Instance.{Valid};
ghost use Rattle.qc_model.specs.Nodes.{Conflicts, Fits, IsSettled, assigned, is_sooner};
ghost use Rattle.qc_dist.specs.Heads.{IsHeads};
ghost use Rattle.qc_dist.specs.Node.{Node, IsOpen, newest};
ghost use Rattle.qc_dist.specs.Fields.{node_of, IsKept};

use crate::grid::{before_marks, cell, no_marks};
use crate::heads::{Heads, head_table};
use qc_model::{Decision, Instance, copy};
use qc_num::OutOfMemory;
use std::alloc::Global;
use std::marker::Model;

/// The decisions of a search for one instance, of which it keeps a copy. Beside them stand tables, so
/// that what they ask for is answered without going through them. All memory is taken by `new`.
pub struct Decisions {
    inst: Instance,
    /// Oldest first.
    made: Vec<Decision>,
    /// The crane of each task.
    cranes: Vec<Option<u16>>,
    /// The pairs that the instance orders.
    before: Vec<bool>,
    /// The pairs that are decided.
    ordered: Vec<bool>,
    /// When each task can start.
    heads: Vec<Heads>,
}

impl Model for Decisions {
    ghost Value = { Node };

    ghost view = { node_of };

    ghost invariant = { IsKept };
}

// By hand, so that it is let go by one call wherever it is held.
impl Drop for Decisions {
    fn drop(self) {
        let Decisions {
            inst: _,
            made: _,
            cranes: _,
            before: _,
            ordered: _,
            heads: _,
        } = self;
    }
}

impl Decisions {
    /// No decision for the instance, and room for one a task and one a pair that may get an order.
    pub fn new(alloc: Global, inst: &Instance) -> Result<Decisions, OutOfMemory>
        ensures { IfOk result (λ made. made ≡ record { inst = inst.now; decisions = [] }) }
    {
        let tasks = inst.task_count();
        let room = tasks as usize + inst.order_pairs() as usize;
        Ok(Decisions {
            made: Vec::with_capacity(alloc, room)?,
            cranes: vec![in alloc; None; tasks as usize]?,
            before: before_marks(alloc, inst)?,
            ordered: no_marks(alloc, tasks)?,
            heads: head_table(alloc, inst)?,
            inst: copy(alloc, inst)?,
        })
    }

    /// The instance that the decisions are made for.
    pub fn instance(&self) -> &Instance
        ensures same { result.now ≡ self.now.inst }
        ensures valid { Valid self.now.inst }
    {
        &self.inst
    }

    /// Decides one thing more.
    pub fn add(&mut self, decision: Decision)
        requires { IsOpen self.old.inst self.old.decisions decision }
        ensures added { self.new ≡ record self.old {
          decisions = decision ∷ self.old.decisions;
        } }
        ensures fits { Fits self.old.inst self.new.decisions }
    {
        match decision {
            Decision::Assign(task, crane) => self.assign(task, crane),
            Decision::Order(first, second) => self.order(first, second),
        }
    }

    /// Decides the crane of a task.
    fn assign(&mut self, task: u16, crane: u16)
        requires task { task < length self.old.inst.tasks }
        requires crane { crane < length self.old.inst.cranes }
        requires none { assigned self.old.decisions task ≡ None }
        ensures added { self.new ≡ record self.old {
          decisions = Assign task crane ∷ self.old.decisions;
        } }
        ensures fits { Fits self.new.inst self.new.decisions }
    {
        self.made.push_reserved(Decision::Assign(task, crane));
        self.cranes[task as usize] = Some(crane);
    }

    /// Decides which of two tasks that conflict is done first.
    fn order(&mut self, first: u16, second: u16)
        requires conflict { Conflicts self.old.inst self.old.decisions first second }
        requires unsettled { ¬ IsSettled self.old.inst self.old.decisions first second }
        ensures added { self.new ≡ record self.old {
          decisions = Order first second ∷ self.old.decisions;
        } }
        ensures fits { Fits self.new.inst self.new.decisions }
    {
        self.made.push_reserved(Decision::Order(first, second));
        self.ordered[cell(first, second)] = true;
    }

    /// Takes the newest decision back; `None` exactly where there is none.
    pub fn undo(&mut self) -> Option<Decision>
        ensures undone { MatchOption result
            ((self.old.decisions ≡ []) × (self.new ≡ self.old))
            (λ decision. self.old ≡ record self.new {
              decisions = decision ∷ self.new.decisions;
            }) }
        ensures fits { Fits self.new.inst self.new.decisions }
    {
        let decision = self.made.pop()?;
        match decision {
            Decision::Assign(task, _) => self.cranes[task as usize] = None,
            Decision::Order(first, second) => self.ordered[cell(first, second)] = false,
        }
        Some(decision)
    }

    /// The newest decision; `None` exactly where there is none.
    pub fn newest(&self) -> Option<Decision>
        ensures { result ≡ newest self.now.decisions }
    {
        self.made.last().copied()
    }

    /// The crane of a task; `None` exactly where it has none.
    pub fn crane_of(&self, task: u16) -> Option<u16>
        requires { task < length self.now.inst.tasks }
        ensures crane { result ≡ assigned self.now.decisions task }
        ensures range { IfSome result (λ crane. crane < length self.now.inst.cranes) }
    {
        self.cranes[task as usize]
    }

    /// Whether a task must end before another starts.
    pub(crate) fn is_sooner(&self, first: u16, second: u16) -> bool
        requires first { first < length self.now.inst.tasks }
        requires second { second < length self.now.inst.tasks }
        ensures { result ≡ is_sooner self.now.inst self.now.decisions first second }
    {
        self.before[cell(first, second)] || self.ordered[cell(first, second)]
    }

    /// When a task can start at the least.
    pub(crate) fn heads_of(&self, task: u16) -> &Heads
        requires { task < length self.now.inst.tasks }
        ensures heads { IsHeads self.now.inst task result.now }
        ensures valid { Valid self.now.inst }
    {
        &self.heads[task as usize]
    }
}
