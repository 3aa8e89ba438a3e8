//! The dispatcher: it follows the order of a plan while tasks take as long as they do.

ghost use Rattle.std.specs.Prelude.{◌≡◌, ◌<◌, ◌≤◌, IfNone, IfOk, IfSome, List, None, length, replicate};
ghost use Rattle.qc_model.specs.Rules.{Feasible};
ghost use Rattle.qc_dispatch.specs.declared.stage.Stage.TheVariants.{Waiting};
ghost use Rattle.qc_dispatch.specs.Calls.{Call, Reaches, opening};
ghost use Rattle.qc_dispatch.specs.Course.{Course, IsAdvanced, IsQuiet, IsReported, MayFrom, WaitsFor, end_at, is_running, left, past_moments, running, stage_of, start_at};
ghost use Rattle.qc_dispatch.specs.Promises.{GoesOn, Keeps};
ghost use Rattle.qc_dispatch.specs.Kept.{ComesBy};
ghost use Rattle.qc_dispatch.specs.Marks.{AreMarks};
ghost use Rattle.qc_dispatch.specs.Waits.{AreWaits};
ghost use Rattle.qc_model.specs.Instance.{Valid};

use crate::grant::{Grant, NotRunning};
use crate::leader::first_open;
use crate::next::{Next, moment_of, next_start, within};
use crate::order::lead_marks;
use crate::stage::Stage;
use crate::waits::Waits;
use qc_model::{Instance, Schedule, Slot, copy};
use qc_num::{OutOfMemory, Tick};
use std::alloc::Global;
use std::marker::Model;

/// Follows the order of a feasible plan while tasks take as long as they do: it grants each start at the
/// first moment at which the rules allow it. It keeps copies of the instance and of the plan, and takes
/// memory in `open` alone.
pub struct Dispatch {
    inst: Instance,
    slots: Vec<Slot>,
    /// Which task leads which.
    marks: Vec<bool>,
    waits: Waits,
    stages: Vec<Stage>,
    clock: Tick,
}

impl Model for Dispatch {
    ghost use Rattle.qc_dispatch.specs.Course.{Course};

    ghost Value = { Course };

    ghost use Rattle.qc_dispatch.specs.Fields.{IsKept, course_of};

    ghost view = { course_of };

    ghost invariant = { IsKept };
}

// By hand, so that it is let go by one call wherever it is held.
impl Drop for Dispatch {
    fn drop(self) {
        let Dispatch {
            inst: _,
            slots: _,
            marks: _,
            waits: _,
            stages: _,
            clock: _,
        } = self;
    }
}

/// So many tasks that have no start.
fn none_started(alloc: Global, tasks: u16) -> Result<Vec<Stage>, OutOfMemory>
    ensures { IfOk result (λ stages. stages.items ≡ replicate tasks Waiting) }
{
    let stages = vec![in alloc; Stage::Waiting; tasks as usize].map_err(OutOfMemory::from)?;
    Ok(stages)
}

/// The lists that a dispatcher keeps.
#[derive(Drop)]
struct Lists {
    slots: Vec<Slot>,
    marks: Vec<bool>,
    waits: Waits,
    stages: Vec<Stage>,
}

impl Lists {
    /// Fills them in for a plan of which nothing is started. What is held is lent, so that nothing is let go where
    /// memory is wanting.
    fn fill(&mut self, alloc: Global, inst: &Instance, plan: &[Slot]) -> Result<(), OutOfMemory>
        requires { Feasible inst.now plan.now }
        ensures valid { IfOk result (λ _. Valid inst.now) }
        ensures slots { IfOk result (λ _. self.new.slots.items ≡ plan.now) }
        ensures marks { IfOk result (λ _. AreMarks inst.now plan.now self.new.marks.items) }
        ensures waits { IfOk result (λ _. AreWaits inst.now plan.now self.new.marks.items (λ i. None) self.new.waits.items.items) }
        ensures stages { IfOk result (λ _. self.new.stages.items ≡ replicate (length inst.now.tasks) Waiting) }
    {
        self.marks = lead_marks(alloc, inst, plan)?;
        self.waits = Waits::new(alloc, inst, plan, self.marks.as_slice())?;
        self.slots = Vec::from_slice(alloc, plan)?;
        self.stages = none_started(alloc, inst.task_count())?;
        Ok(())
    }
}

impl Dispatch {
    /// Nothing is started, and it is tick 0. Whatever is then reported and whenever, all rules are kept.
    pub fn open(alloc: Global, inst: &Instance, plan: &Schedule) -> Result<Dispatch, OutOfMemory>
        requires { Feasible inst.now plan.now }
        ensures opens { IfOk result (λ made. made ≡ opening inst.now plan.now) }
        ensures kept { IfOk result (λ made. (calls : List Call) (after : Course)
            → Reaches made calls after → Keeps after) }
    {
        let mut lists = Lists {
            slots: Vec::new(alloc),
            marks: Vec::new(alloc),
            waits: Waits {
                items: Vec::new(alloc),
            },
            stages: Vec::new(alloc),
        };
        let Ok(()) = lists.fill(alloc, inst, plan.slots()) else {
            drop(lists);
            return Err(OutOfMemory);
        };
        let Ok(kept) = copy(alloc, inst) else {
            drop(lists);
            return Err(OutOfMemory);
        };
        Ok(Dispatch {
            inst: kept,
            slots: lists.slots,
            marks: lists.marks,
            waits: lists.waits,
            stages: lists.stages,
            clock: 0,
        })
    }

    /// The instance that it was opened for.
    pub fn instance(&self) -> &Instance
        ensures { result.now ≡ self.now.inst }
    {
        &self.inst
    }

    /// The next start, if one comes by this tick.
    fn next_by(&self, to: Tick) -> Option<Next>
        ensures { ComesBy self.now to result }
    {
        within(
            next_start(
                self.stages.as_slice(),
                self.waits.items.as_slice(),
                self.clock,
            ),
            to,
        )
    }

    /// Goes on to the first moment from now to this tick at which some task may start, and starts the lowest
    /// one there; `None` exactly where there is no such moment, and it is then this tick.
    pub fn advance(&mut self, to: Tick) -> Option<Grant>
        requires from { self.old.clock ≤ to }
        requires by { to < past_moments }
        ensures advanced { IsAdvanced self.old to result self.new }
        ensures inside { IfSome result (λ grant. (grant.task < length self.new.inst.tasks)
            × (grant.crane < length self.new.inst.cranes)) }
        ensures keeps { Keeps self.new }
        ensures goes_on { IfNone result (0 < left self.new → running self.new ≡ 0 → GoesOn self.new) }
    {
        match self.next_by(to) {
            Some(next) => {
                let task = next.task as usize;
                self.clock = next.moment;
                self.stages[task] = Stage::Running(next.moment);
                Some(Grant {
                    task: next.task,
                    crane: self.slots[task].crane,
                    at: next.moment,
                })
            }
            None => {
                self.clock = to;
                None
            }
        }
    }

    /// A task is done: it ends now. `NotRunning` exactly where it has no start, or an end already; nothing changes then.
    pub fn done(&mut self, task: u16) -> Result<(), NotRunning>
        requires quiet { IsQuiet self.old }
        requires inside { task < length self.old.inst.tasks }
        ensures reported { IsReported self.old task result self.new }
        ensures keeps { Keeps self.new }
    {
        let Stage::Running(start) = self.stages[task as usize] else {
            return Err(NotRunning);
        };
        self.stages[task as usize] = Stage::Ended(start, self.clock);
        self.waits.let_go(
            &self.inst,
            self.slots.as_slice(),
            self.marks.as_slice(),
            task,
            self.clock,
        );
        Ok(())
    }

    /// The tick that it is.
    pub fn now(&self) -> Tick
        ensures now { result ≡ self.now.clock }
        ensures early { result < past_moments }
        ensures plan { Valid self.now.inst × Feasible self.now.inst self.now.plan }
        ensures keeps { Keeps self.now }
    {
        self.clock
    }

    /// How many tasks have no start.
    pub fn left(&self) -> u16
        ensures { result ≡ left self.now }
    {
        self.stages
            .iter()
            .filter(|stage| stage.is_waiting())
            .count() as u16
    }

    /// How many tasks run.
    pub fn running(&self) -> u16
        ensures { result ≡ running self.now }
    {
        self.stages
            .iter()
            .filter(|stage| stage.is_running())
            .count() as u16
    }

    /// When a task started; `None` exactly where it has no start.
    pub fn start_of(&self, task: u16) -> Option<Tick>
        requires { task < length self.now.inst.tasks }
        ensures { result ≡ start_at self.now task }
    {
        self.stages[task as usize].start()
    }

    /// When a task ended; `None` exactly where it has no end.
    pub fn end_of(&self, task: u16) -> Option<Tick>
        requires { task < length self.now.inst.tasks }
        ensures { result ≡ end_at self.now task }
    {
        self.stages[task as usize].end()
    }

    /// Whether a task runs: it has a start and no end.
    pub(crate) fn runs(&self, task: u16) -> bool
        requires { task < length self.now.inst.tasks }
        ensures { result ≡ is_running (stage_of self.now task) }
    {
        self.stages[task as usize].is_running()
    }

    /// When a task may start if nothing is reported before; `None` exactly where it has a start or waits for another.
    pub fn may_start(&self, task: u16) -> Option<Tick>
        requires { task < length self.now.inst.tasks }
        ensures { MayFrom self.now task result }
    {
        let wait = self.waits.items[task as usize];
        moment_of(self.clock, self.stages[task as usize], wait)
    }

    /// The task whose end a task waits for: the first by the plan; `None` exactly where it waits for no task.
    pub fn waits_for(&self, task: u16) -> Option<u16>
        requires { task < length self.now.inst.tasks }
        ensures { WaitsFor self.now task result }
    {
        let first = first_open(
            self.stages.as_slice(),
            self.slots.as_slice(),
            self.marks.as_slice(),
            task,
        );
        match first {
            Some(next) => Some(next.task),
            None => None,
        }
    }
}
