//! A plan that is tried with other lengths each time.

ghost use Rattle.std.specs.Prelude.{◌≡◌, ◌≤◌, IfOk, length};
ghost use Rattle.qc_model.specs.Rules.{Feasible};
ghost use Rattle.qc_dispatch.specs.Marks.{AreMarks};
ghost use Rattle.qc_odds.specs.Course.{AreStarts, IsLastEnd};
ghost use Rattle.qc_odds.specs.Critical.{AreMarked};
ghost use Rattle.qc_odds.specs.Lengths.{AreLengths};
ghost use Rattle.qc_odds.specs.Moments.{AreSoon, most_end, most_held};
ghost use Rattle.qc_odds.specs.Order.{AreTurns};
ghost use Rattle.qc_odds.specs.Runs.{crane_end, held};

use crate::order::{PlannedStart, turns_of};
use crate::pass::work;
use crate::run::Run;
use qc_dispatch::lead_marks;
use qc_model::{Instance, Schedule, Slot, copy};
use qc_num::{OutOfMemory, Tick};
use std::alloc::Global;
use std::marker::Model;

/// A feasible plan, tried with other lengths of its tasks each time: who leads whom stays as planned, and no task
/// waits longer than the rules ask. It keeps copies of the instance and of the plan, and takes memory in `open` alone.
pub struct Course {
    inst: Instance,
    slots: Vec<Slot>,
    /// Which task leads which.
    marks: Vec<bool>,
    /// The tasks by their planned starts.
    turns: Vec<PlannedStart>,
    starts: Vec<Tick>,
}

impl Model for Course {
    ghost use Rattle.qc_odds.specs.Course.{CourseView};
    ghost use Rattle.qc_odds.specs.Kept.{IsKept, course_of};

    ghost Value = { CourseView };

    ghost view = { course_of };

    ghost invariant = { IsKept };
}

// By hand, so that it is let go by one call wherever it is held.
impl Drop for Course {
    fn drop(self) {
        let Course {
            inst: _,
            slots: _,
            marks: _,
            turns: _,
            starts: _,
        } = self;
    }
}

/// The lists that are kept.
#[derive(Drop)]
struct Lists {
    slots: Vec<Slot>,
    marks: Vec<bool>,
    turns: Vec<PlannedStart>,
    starts: Vec<Tick>,
}

/// So many starts.
fn no_starts(alloc: Global, tasks: u16) -> Result<Vec<Tick>, OutOfMemory>
    ensures { IfOk result (λ starts. length starts.items ≡ tasks) }
{
    let starts = vec![in alloc; 0; tasks as usize].map_err(OutOfMemory::from)?;
    Ok(starts)
}

impl Lists {
    /// Fills them in for a plan. What is held is lent, so that nothing is let go where memory is wanting.
    fn fill(&mut self, alloc: Global, inst: &Instance, plan: &[Slot]) -> Result<(), OutOfMemory>
        requires { Feasible inst.now plan.now }
        ensures slots { IfOk result (λ _. self.new.slots.items ≡ plan.now) }
        ensures marks { IfOk result (λ _. AreMarks inst.now plan.now self.new.marks.items) }
        ensures turns { IfOk result (λ _. AreTurns inst.now plan.now self.new.turns.items) }
        ensures starts { IfOk result (λ _. length self.new.starts.items ≡ length inst.now.tasks) }
    {
        self.marks = lead_marks(alloc, inst, plan)?;
        self.turns = turns_of(alloc, inst, plan)?;
        self.slots = Vec::from_slice(alloc, plan)?;
        self.starts = no_starts(alloc, inst.task_count())?;
        Ok(())
    }
}

impl Course {
    /// The plan has not been worked yet.
    pub fn open(alloc: Global, inst: &Instance, plan: &Schedule) -> Result<Course, OutOfMemory>
        requires { Feasible inst.now plan.now }
        ensures inst { IfOk result (λ made. made.inst ≡ inst.now) }
        ensures plan { IfOk result (λ made. made.plan ≡ plan.now) }
    {
        let mut lists = Lists {
            slots: Vec::new(alloc),
            marks: Vec::new(alloc),
            turns: Vec::new(alloc),
            starts: Vec::new(alloc),
        };
        let Ok(()) = lists.fill(alloc, inst, plan.slots()) else {
            drop(lists);
            return Err(OutOfMemory);
        };
        let Ok(kept) = copy(alloc, inst) else {
            drop(lists);
            return Err(OutOfMemory);
        };
        Ok(Course {
            inst: kept,
            slots: lists.slots,
            marks: lists.marks,
            turns: lists.turns,
            starts: lists.starts,
        })
    }

    /// Works the plan with these lengths, and tells when all is done: the last end, 0 without tasks.
    pub fn run(&mut self, lengths: &[Tick]) -> Tick
        requires { AreLengths self.old.inst lengths.now }
        ensures inst { self.new.inst ≡ self.old.inst }
        ensures plan { self.new.plan ≡ self.old.plan }
        ensures starts { AreStarts self.new.inst self.new.plan lengths.now self.new.starts }
        ensures end { IsLastEnd lengths.now self.new.starts result }
        ensures soon { AreSoon self.new.starts }
    {
        work(
            &self.inst,
            self.slots.as_slice(),
            self.marks.as_slice(),
            self.turns.as_slice(),
            lengths,
            self.starts.as_mut_slice(),
        )
    }

    /// The run that had these lengths.
    fn worked<'a>(&'a self, lengths: &'a [Tick]) -> Run<'a>
        requires lengths { AreLengths self.now.inst lengths.now }
        requires soon { AreSoon self.now.starts }
        ensures { result ≡ record {
          inst = self.now.inst;
          plan = self.now.plan;
          lengths = lengths.now;
          starts = self.now.starts;
        } }
    {
        Run {
            inst: &self.inst,
            slots: self.slots.as_slice(),
            marks: self.marks.as_slice(),
            lengths,
            starts: self.starts.as_slice(),
        }
    }

    /// Marks the critical tasks of the run that had these lengths and this last end: with a tick more of one of them
    /// the run ends later, and of no other.
    pub fn mark_critical(&self, lengths: &[Tick], last: Tick, marked: &mut [bool])
        requires lengths { AreLengths self.now.inst lengths.now }
        requires soon { AreSoon self.now.starts }
        requires count { length marked.old ≡ length self.now.inst.tasks }
        ensures { AreMarked self.now.inst self.now.plan lengths.now self.now.starts last marked.new }
    {
        self.worked(lengths)
            .mark_critical(self.turns.as_slice(), last, marked);
    }

    /// When a crane is through with its tasks in the run that had these lengths; 0 where it has none.
    pub fn crane_end(&self, lengths: &[Tick], crane: u16) -> Tick
        requires lengths { AreLengths self.now.inst lengths.now }
        requires soon { AreSoon self.now.starts }
        ensures ticks { result ≡ crane_end self.now.inst self.now.plan lengths.now self.now.starts crane }
        ensures bound { result ≤ most_end }
    {
        self.worked(lengths).crane_end(crane)
    }

    /// For how many ticks a crane stood at its tasks and waited in the run that had these lengths.
    pub fn held(&self, lengths: &[Tick], crane: u16) -> Tick
        requires lengths { AreLengths self.now.inst lengths.now }
        requires soon { AreSoon self.now.starts }
        ensures ticks { result ≡ held self.now.inst self.now.plan lengths.now self.now.starts crane }
        ensures bound { result ≤ most_held }
    {
        self.worked(lengths).held(crane)
    }

    /// The instance of the plan.
    pub fn instance(&self) -> &Instance
        ensures { result.now ≡ self.now.inst }
    {
        &self.inst
    }

    /// The starts of the tasks, as the plan was last worked.
    pub fn starts(&self) -> &[Tick]
        ensures { result.now ≡ self.now.starts }
    {
        self.starts.as_slice()
    }
}
