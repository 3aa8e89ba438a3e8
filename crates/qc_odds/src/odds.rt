//! What many runs of a plan come to.

ghost use Rattle.std.specs.Prelude.{◌≡◌, ◌<◌, ◌≤◌, [], IfOk, OnOk, length, replicate, vec_capacity};
ghost use Rattle.std.specs.List.Sorted.{IsPermutation, IsSorted};
ghost use Rattle.std.specs.Ordering.{nat_cmp};
ghost use Rattle.qc_odds.specs.Lengths.{AreLengths};
ghost use Rattle.qc_odds.specs.Moments.{AreSoon};
ghost use Rattle.qc_odds.specs.Sums.{no_crane_sum, no_task_sum};
ghost use Rattle.qc_odds.specs.Watched.{AreWorst};

use crate::course::Course;
use crate::sums::{CraneSum, TaskSum, add_cranes, add_tasks};
use crate::tally::Tally;
use crate::watched::{MOST_WATCHED, find_worst};
use qc_model::Instance;
use qc_num::{OutOfMemory, Tick};
use std::alloc::Global;

/// What many runs of a plan come to.
pub struct Odds {
    /// The last end of each run.
    pub tally: Tally,
    /// What they come to for each crane.
    pub cranes: Vec<CraneSum>,
    /// What they come to for each task.
    pub tasks: Vec<TaskSum>,
    /// The tasks that took longer than planned where they were critical, the worst first: at most ten.
    pub watched: Vec<u16>,
}

// By hand, so that it is let go by one call wherever it is held.
impl Drop for Odds {
    fn drop(self) {
        let Odds {
            tally: _,
            cranes: _,
            tasks: _,
            watched: _,
        } = self;
    }
}

ghost use Rattle.qc_odds.specs.Simulated.{AddsRun, HasRoom, HasNone};

/// So many cranes of which no run is over.
fn no_cranes(alloc: Global, count: u16) -> Result<Vec<CraneSum>, OutOfMemory>
    ensures { IfOk result (λ sums. sums.items ≡ replicate count no_crane_sum) }
{
    let none = CraneSum {
        ends: 0,
        held: 0,
        lasts: 0,
    };
    let sums = vec![in alloc; none; count as usize].map_err(OutOfMemory::from)?;
    Ok(sums)
}

/// So many tasks of which no run is over.
fn no_tasks(alloc: Global, count: u16) -> Result<Vec<TaskSum>, OutOfMemory>
    ensures { IfOk result (λ sums. sums.items ≡ replicate count no_task_sum) }
{
    let none = TaskSum {
        critical: 0,
        over: 0,
    };
    let sums = vec![in alloc; none; count as usize].map_err(OutOfMemory::from)?;
    Ok(sums)
}

/// Room for the tasks to watch.
fn room_to_watch(alloc: Global) -> Result<Vec<u16>, OutOfMemory>
    ensures none { IfOk result (λ watched. watched.items ≡ []) }
    ensures room { IfOk result (λ watched. vec_capacity watched ≡ MOST_WATCHED) }
{
    let watched = Vec::with_capacity(alloc, MOST_WATCHED)?;
    Ok(watched)
}

impl Odds {
    /// Nothing is held.
    fn empty(alloc: Global) -> Odds {
        Odds {
            tally: Tally::empty(alloc),
            cranes: Vec::new(alloc),
            tasks: Vec::new(alloc),
            watched: Vec::new(alloc),
        }
    }

    /// Takes the memory for so many runs. What is held is lent, so that nothing is let go where memory is wanting.
    fn fill(&mut self, alloc: Global, inst: &Instance, runs: u16) -> Result<(), OutOfMemory>
        ensures { OnOk result (HasNone inst.now runs self.new) }
    {
        self.tally = Tally::open(alloc, runs)?;
        self.cranes = no_cranes(alloc, inst.crane_count())?;
        self.tasks = no_tasks(alloc, inst.task_count())?;
        self.watched = room_to_watch(alloc)?;
        Ok(())
    }

    /// No run is over; there is room for so many.
    pub(crate) fn open(alloc: Global, inst: &Instance, runs: u16) -> Result<Odds, OutOfMemory>
        ensures { IfOk result (HasNone inst.now runs) }
    {
        let mut odds = Odds::empty(alloc);
        match odds.fill(alloc, inst, runs) {
            Ok(()) => Ok(odds),
            Err(OutOfMemory) => {
                drop(odds);
                Err(OutOfMemory)
            }
        }
    }

    /// Adds a run that had these lengths, this last end and these critical tasks.
    pub(crate) fn add(&mut self, course: &Course, lengths: &[Tick], last: Tick, marked: &[bool])
        requires room { HasRoom course.now.inst self.old }
        requires lengths { AreLengths course.now.inst lengths.now }
        requires soon { AreSoon course.now.starts }
        requires marked { length marked.now ≡ length course.now.inst.tasks }
        ensures { AddsRun course.now.inst course.now.plan lengths.now course.now.starts last marked.now self.old self.new }
    {
        add_cranes(self.cranes.as_mut_slice(), course, lengths, last);
        add_tasks(
            self.tasks.as_mut_slice(),
            course.instance(),
            lengths,
            marked,
        );
        self.tally.add(last);
    }

    /// Sorts the ends, and finds the tasks to watch: no more runs come.
    pub(crate) fn close(&mut self)
        requires few { length self.old.tasks.items ≤ 240 }
        requires none { self.old.watched.items ≡ [] }
        requires room { vec_capacity self.old.watched ≡ MOST_WATCHED }
        ensures sorted { IsSorted nat_cmp self.new.tally.ends }
        ensures same { IsPermutation self.old.tally.ends self.new.tally.ends }
        ensures cranes { self.new.cranes ≡ self.old.cranes }
        ensures tasks { self.new.tasks ≡ self.old.tasks }
        ensures worst { AreWorst self.new.tasks.items self.new.watched.items }
    {
        self.tally.sort();
        find_worst(self.tasks.as_slice(), &mut self.watched);
    }
}
