//! A plan that is worked run after run.

ghost use Rattle.std.specs.Prelude.{◌≡◌, ℕ, ◌-◌, ◌<◌, ◌≤◌, [], IfOk, List, length, vec_capacity};
ghost use Rattle.qc_model.specs.declared.schedule.Slot.{Slot};
ghost use Rattle.qc_model.specs.Instance.{InstanceView, Valid};
ghost use Rattle.qc_model.specs.Rules.{Feasible};
ghost use Rattle.qc_odds.specs.Odds.{AreOdds, AreSmall};
ghost use Rattle.qc_odds.specs.Simulated.{IsSimulated};
ghost use Rattle.qc_odds.specs.Watched.{most_watched};
ghost use Rattle.qc_past.specs.declared.task.PastTask.{PastTask};

use crate::course::Course;
use crate::odds::Odds;
use crate::run_lengths::lengths;
use qc_io::Shelf;
use qc_model::{Instance, Schedule};
use qc_num::{OutOfMemory, Tick};
use qc_past::Past;
use std::alloc::Global;

/// The most runs.
pub const MOST_RUNS: u16 = 10_000;

/// What a run fills in: how long each task takes, and which are critical.
#[derive(Drop)]
struct RunLists {
    lengths: Vec<Tick>,
    marked: Vec<bool>,
}

/// A plan, what a run fills in, and what the runs so far come to.
struct Simulation {
    course: Course,
    lists: RunLists,
    odds: Odds,
}

/// The lengths of so many tasks.
fn no_lengths(alloc: Global, tasks: u16) -> Result<Vec<Tick>, OutOfMemory>
    ensures { IfOk result (λ lengths. length lengths.items ≡ tasks) }
{
    let lengths = vec![in alloc; 0; tasks as usize].map_err(OutOfMemory::from)?;
    Ok(lengths)
}

/// No task of so many is marked.
fn no_marks(alloc: Global, tasks: u16) -> Result<Vec<bool>, OutOfMemory>
    ensures { IfOk result (λ marked. length marked.items ≡ tasks) }
{
    let marked = vec![in alloc; false; tasks as usize].map_err(OutOfMemory::from)?;
    Ok(marked)
}

impl RunLists {
    /// Lists for so many tasks.
    fn open(alloc: Global, tasks: u16) -> Result<RunLists, OutOfMemory>
        ensures lengths { IfOk result (λ lists. length lists.lengths.items ≡ tasks) }
        ensures marked { IfOk result (λ lists. length lists.marked.items ≡ tasks) }
    {
        let lengths = no_lengths(alloc, tasks)?;
        let Ok(marked) = no_marks(alloc, tasks) else {
            drop(lengths);
            return Err(OutOfMemory);
        };
        Ok(RunLists { lengths, marked })
    }
}

impl Simulation {
    /// No run is over; there is room for so many.
    fn open(
        alloc: Global,
        inst: &Instance,
        plan: &Schedule,
        runs: u16,
    ) -> Result<Simulation, OutOfMemory>
        requires { Feasible inst.now plan.now }
        ensures { (past : List PastTask) (seed : ℕ) →
            IfOk result (IsSimulated past inst.now plan.now seed 0 runs) }
    {
        let course = Course::open(alloc, inst, plan)?;
        let Ok(odds) = Odds::open(alloc, inst, runs) else {
            drop(course);
            return Err(OutOfMemory);
        };
        let Ok(lists) = RunLists::open(alloc, inst.task_count()) else {
            drop(course);
            drop(odds);
            return Err(OutOfMemory);
        };
        Ok(Simulation {
            course,
            lists,
            odds,
        })
    }

    /// Works the plan once more.
    fn run(&mut self, past: &Past, seed: u32, number: u32)
        requires number { 1 ≤ number }
        requires runs { (inst : InstanceView) × ((plan : List Slot) × ((room : ℕ) ×
            ((number ≤ room) × ((room ≤ 10000) × IsSimulated past.now inst plan seed (number - 1) room self.old)))) }
        ensures { (inst : InstanceView) (plan : List Slot) (room : ℕ) →
            IsSimulated past.now inst plan seed (number - 1) room self.old
            → IsSimulated past.now inst plan seed number room self.new }
    {
        let lists = &mut self.lists;
        lengths(
            past,
            self.course.instance(),
            seed,
            number,
            lists.lengths.as_mut_slice(),
        );
        let last = self.course.run(lists.lengths.as_slice());
        self.course.mark_critical(lists.lengths.as_slice(), last, lists.marked.as_mut_slice());
        self.odds.add(
            &self.course,
            lists.lengths.as_slice(),
            last,
            lists.marked.as_slice(),
        );
    }

    /// What the runs came to.
    fn close(self) -> Odds
        requires few { length self.odds.tasks.items ≤ 240 }
        requires none { self.odds.watched.items ≡ [] }
        requires room { vec_capacity self.odds.watched ≡ most_watched }
        ensures { (past : List PastTask) (inst : InstanceView) (plan : List Slot) (seed count room : ℕ) → count ≤ 10000
            → IsSimulated past inst plan seed count room self → AreOdds past inst plan seed count result × AreSmall count result }
    {
        let Simulation {
            course: _,
            lists: _,
            mut odds,
        } = self;
        odds.close();
        odds
    }
}

/// Works a plan so many times, each time with lengths that are drawn from what tasks of past calls took, and tells what
/// these runs come to. All memory is taken before the first run. The shelf is told of each run that is done.
pub fn simulate<S: Shelf>(
    alloc: Global,
    inst: &Instance,
    plan: &Schedule,
    past: &Past,
    seed: u32,
    runs: u16,
    shelf: &mut S,
) -> Result<Odds, OutOfMemory>
    requires plan { Feasible inst.now plan.now }
    requires few { runs ≤ 10000 }
    ensures odds { IfOk result (AreOdds past.now inst.now plan.now seed runs) }
    ensures small { IfOk result (AreSmall runs) }
    ensures valid { Valid inst.now }
    ensures view_stays { S.Sink.view shelf.new ≡ S.Sink.view shelf.old }
{
    let _tasks = inst.task_count();
    let mut simulation = Simulation::open(alloc, inst, plan, runs)?;
    for before in 0..runs {
        simulation.run(past, seed, u32::from(before) + 1);
        shelf.tell_runs(u32::from(before) + 1, u32::from(runs));
    }
    Ok(simulation.close())
}
