//! What many runs come to, in all, for each crane and each task.

ghost use Rattle.std.specs.Prelude.{◌≡◌, ℕ, ◌+◌, ◌*◌, ◌<◌, ◌≤◌, length, slice_index_or};
ghost use Rattle.qc_odds.specs.Lengths.{AreLengths, most_length};
ghost use Rattle.qc_odds.specs.Moments.{AreSoon, most_end, most_held};
ghost use Rattle.qc_odds.specs.Runs.{over};
ghost use Rattle.qc_odds.specs.Tally.{chance};
ghost use Rattle.std.specs.Int.{div_ceil};

use crate::course::Course;
use qc_model::Instance;
use qc_num::Tick;

/// What many runs come to for a crane.
#[derive(Clone, Copy)]
pub struct CraneSum {
    /// When it was through with its tasks, in ticks, summed over the runs.
    pub ends: Tick,
    /// For how many ticks it stood at its tasks and waited, in all.
    pub held: u128,
    /// In how many runs it was through when all was done.
    pub lasts: u16,
}

/// What many runs come to for a task.
#[derive(Clone, Copy)]
pub struct TaskSum {
    /// In how many runs it was critical.
    pub critical: u16,
    /// By how many ticks it took longer than planned where it was critical, in all.
    pub over: Tick,
}

ghost use Rattle.qc_odds.specs.Added.{crane_added, task_added, with_crane_run, with_task_run};
ghost use Rattle.qc_odds.specs.Small.{AreSmallCranes, AreSmallTasks, IsSmallCrane, IsSmallTask};
ghost use Rattle.qc_odds.specs.Sums.{no_crane_sum, no_task_sum};

/// How likely something is that comes in so many of some runs, in thousandths, rounded down.
fn chance(count: u16, runs: u16) -> u16
    requires some { 1 ≤ runs }
    requires few { count ≤ runs }
    ensures { result ≡ chance count runs }
{
    (1000 * u32::from(count) / u32::from(runs)) as u16
}

impl CraneSum {
    /// What it comes to with one run more.
    fn with(self, end: Tick, held: Tick, is_last: bool) -> CraneSum
        requires small { (runs : ℕ) × ((runs < 10000) × IsSmallCrane runs self) }
        requires end { end ≤ most_end }
        requires held { held ≤ most_held }
        ensures { result ≡ with_crane_run self end held is_last }
    {
        CraneSum {
            ends: self.ends + end,
            held: self.held + u128::from(held),
            lasts: self.lasts + u16::from(is_last),
        }
    }

    /// When it was through in the mean of so many runs, rounded up.
    pub fn mean_end(self, runs: u16) -> Tick
        requires some { 1 ≤ runs }
        ensures { result ≡ div_ceil self.ends runs }
    {
        self.ends.div_ceil(u64::from(runs))
    }

    /// For how many ticks it waited at its tasks in the mean of so many runs, rounded up.
    pub fn mean_held(self, runs: u16) -> Tick
        requires some { 1 ≤ runs }
        requires small { IsSmallCrane runs self }
        ensures { result ≡ div_ceil self.held runs }
    {
        self.held.div_ceil(u128::from(runs)) as u64
    }

    /// The chance that it is through when all is done, by so many runs, in thousandths, rounded down.
    pub fn last_chance(self, runs: u16) -> u16
        requires some { 1 ≤ runs }
        requires small { IsSmallCrane runs self }
        ensures { result ≡ chance self.lasts runs }
    {
        chance(self.lasts, runs)
    }
}

impl TaskSum {
    /// What it comes to with one run more.
    fn with(self, is_critical: bool, over: Tick) -> TaskSum
        requires small { (runs : ℕ) × ((runs < 10000) × IsSmallTask runs self) }
        requires over { over ≤ most_length }
        ensures { result ≡ with_task_run self is_critical over }
    {
        TaskSum {
            critical: self.critical + u16::from(is_critical),
            over: self.over + over,
        }
    }

    /// The chance that it is critical, by so many runs, in thousandths, rounded down.
    pub fn critical_chance(self, runs: u16) -> u16
        requires some { 1 ≤ runs }
        requires small { IsSmallTask runs self }
        ensures { result ≡ chance self.critical runs }
    {
        chance(self.critical, runs)
    }

    /// By how many ticks it took longer than planned where it was critical, in the mean of so many runs, rounded up.
    pub fn mean_over(self, runs: u16) -> Tick
        requires { 1 ≤ runs }
        ensures { result ≡ div_ceil self.over runs }
    {
        self.over.div_ceil(u64::from(runs))
    }
}

/// Adds a run to what earlier ones come to for the cranes.
pub(crate) fn add_cranes(sums: &mut [CraneSum], course: &Course, lengths: &[Tick], last: Tick)
    requires count { length sums.old ≡ length course.now.inst.cranes }
    requires small { (runs : ℕ) × ((runs < 10000) × AreSmallCranes runs sums.old) }
    requires lengths { AreLengths course.now.inst lengths.now }
    requires soon { AreSoon course.now.starts }
    ensures each { (k : ℕ) → k < length sums.new → slice_index_or sums.new k no_crane_sum
        ≡ crane_added course.now.inst course.now.plan lengths.now course.now.starts last k
        (slice_index_or sums.old k no_crane_sum) }
    ensures small { (runs : ℕ) → AreSmallCranes runs sums.old → AreSmallCranes (runs + 1) sums.new }
{
    for crane in 0..course.instance().crane_count() {
        let end = course.crane_end(lengths, crane);
        let held = course.held(lengths, crane);
        let sum = sums[crane as usize];
        sums[crane as usize] = sum.with(end, held, end == last);
    }
}

/// By how much a task takes longer than planned where it is critical; 0 where it isn't.
fn over(inst: &Instance, lengths: &[Tick], marked: &[bool], j: u16) -> Tick
    requires lengths { AreLengths inst.now lengths.now }
    requires marked { length marked.now ≡ length inst.now.tasks }
    requires task { j < length inst.now.tasks }
    ensures over { result ≡ over inst.now lengths.now marked.now j }
    ensures few { result ≤ most_length }
{
    if marked[j as usize] {
        lengths[j as usize].saturating_sub(inst.task(j).ticks)
    } else {
        0
    }
}

/// Adds a run to what earlier ones come to for the tasks.
pub(crate) fn add_tasks(sums: &mut [TaskSum], inst: &Instance, lengths: &[Tick], marked: &[bool])
    requires count { length sums.old ≡ length inst.now.tasks }
    requires small { (runs : ℕ) × ((runs < 10000) × AreSmallTasks runs sums.old) }
    requires lengths { AreLengths inst.now lengths.now }
    requires marked { length marked.now ≡ length inst.now.tasks }
    ensures each { (j : ℕ) → j < length sums.new → slice_index_or sums.new j no_task_sum
        ≡ task_added inst.now lengths.now marked.now j (slice_index_or sums.old j no_task_sum) }
    ensures small { (runs : ℕ) → AreSmallTasks runs sums.old → AreSmallTasks (runs + 1) sums.new }
{
    for task in 0..inst.task_count() {
        let over = over(inst, lengths, marked, task);
        let sum = sums[task as usize];
        sums[task as usize] = sum.with(marked[task as usize], over);
    }
}
