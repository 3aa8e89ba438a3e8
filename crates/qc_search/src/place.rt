//! Where a search stands.
ghost use Rattle.std.specs.Prelude.{◌≡◌, ◌∷◌, [], ◌<◌, ◌≤◌, ℕ, IfOk, IfSome, None, length};
ghost use Rattle.qc_close.specs.Crews.{IsCrewOf};
ghost use Rattle.qc_dist.specs.Node.{IsOpen, Node};
ghost use Rattle.qc_close.specs.Model.{IsWorkBound, GoesBy, Valid, HasStarts, most_start, start_of};
ghost use Rattle.qc_starts.specs.Seen.{IsReached};
ghost use Rattle.qc_search.specs.Places.{IsPlaced, node_of};
ghost use Rattle.qc_search.specs.Progress.{IsTightened};

use crate::given::tighten;
use qc_bounds::work_bound;
use qc_close::Crew;
use qc_model::{Decision, Instance, Schedule};
use qc_num::{OutOfMemory, Tick};
use qc_starts::Starts;
use std::alloc::Global;
use std::marker::Model;

/// A node at which a search stands: its decisions with their earliest starts, and with the crane that
/// each task has by them.
#[derive(Drop)]
pub(crate) struct Node {
    starts: Starts,
    crew: Crew,
}

impl Model for Node {
    ghost Value = { Node };

    ghost view = { node_of };

    ghost invariant = { IsPlaced };
}

impl Node {
    /// The root for an instance. All memory is taken here.
    pub(crate) fn open(alloc: Global, inst: &Instance) -> Result<Node, OutOfMemory>
        ensures inst { IfOk result (λ node. node.inst ≡ inst.now) }
        ensures decisions { IfOk result (λ node. node.decisions ≡ []) }
    {
        let starts = Starts::open(alloc, inst)?;
        let home = starts.instance();
        let crew = Crew::open(alloc, home, home.turn())?;
        Ok(Node { starts, crew })
    }

    /// The instance.
    pub(crate) fn instance(&self) -> &Instance
        ensures same { result.now ≡ self.now.inst }
        ensures valid { Valid self.now.inst }
    {
        self.starts.instance()
    }

    /// The earliest starts.
    pub(crate) fn starts(&self) -> &Starts
        ensures same { result.now ≡ self.now }
        ensures valid { Valid self.now.inst }
    {
        &self.starts
    }

    /// The cranes of the tasks.
    pub(crate) fn crew(&self) -> &Crew
        ensures { IsCrewOf result.now self.now.inst self.now.decisions }
    {
        &self.crew
    }

    /// An end before which the work of the node doesn't fit.
    pub(crate) fn bound(&self) -> Tick
        ensures valid { Valid self.now.inst }
        ensures work { IsWorkBound self.now.inst self.now.decisions result }
    {
        work_bound(&self.crew)
    }

    /// Makes the starts of a schedule that cranes may follow as it is the earliest with its cranes and its
    /// order of tasks, and answers when it then ends. The node is the root, and is left as it was.
    pub(crate) fn tighten(&mut self, sched: &mut Schedule) -> Tick
        requires root { self.old.decisions ≡ [] }
        requires goes { GoesBy self.old.inst.turn self.old.inst sched.old }
        requires soon { (j : ℕ) → j < length self.old.inst.tasks → start_of sched.old j ≤ most_start }
        ensures inst { self.new.inst ≡ self.old.inst }
        ensures root { self.new.decisions ≡ [] }
        ensures tightened { IsTightened self.old.inst sched.old sched.new result }
    {
        tighten(&mut self.starts, sched)
    }

    /// Goes to the child of this decision, which is open and within reach.
    pub(crate) fn go(&mut self, decision: Decision)
        requires starts { HasStarts self.old.inst self.old.decisions }
        requires open { IsOpen self.old.inst self.old.decisions decision }
        requires reached { IsReached self.old.inst decision }
        ensures inst { self.new.inst ≡ self.old.inst }
        ensures decisions { self.new.decisions ≡ decision ∷ self.old.decisions }
    {
        self.starts.go(decision);
        if let Decision::Assign(task, crane) = decision {
            self.crew.put(task, crane);
        }
    }

    /// Takes back the newest decision, and answers it; `None` where there is none.
    pub(crate) fn go_back(&mut self) -> Option<Decision>
        ensures inst { self.new.inst ≡ self.old.inst }
        ensures none { result ≡ None → (self.old.decisions ≡ []) × (self.new ≡ self.old) }
        ensures some { IfSome result (λ newest. self.old.decisions ≡ newest ∷ self.new.decisions) }
    {
        let newest = self.starts.newest()?;
        let mark = self.starts.mark();
        self.starts.retract(mark - 1);
        if let Decision::Assign(task, _) = newest {
            self.crew.take(task);
        }
        Some(newest)
    }

    /// Takes back all decisions.
    pub(crate) fn leave(&mut self)
        ensures inst { self.new.inst ≡ self.old.inst }
        ensures root { self.new.decisions ≡ [] }
    {
        while self.go_back().is_some() {}
    }
}
