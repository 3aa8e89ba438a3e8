//! The lengths that tasks take in a run.

ghost use Rattle.std.specs.Prelude.{◌≡◌, ◌*◌, ◌≤◌, All, length};
ghost use Rattle.std.specs.Int.{div_ceil};
ghost use Rattle.qc_model.specs.declared.limits.TheConstants.{MOST_WORK};
ghost use Rattle.qc_model.specs.Tasks.{task_text};
ghost use Rattle.qc_past.specs.Fields.{most_times};
ghost use Rattle.qc_past.specs.Past.{IsPastTask, tasks_of_call};
ghost use Rattle.qc_odds.specs.Draws.{draw};
ghost use Rattle.qc_odds.specs.Lengths.{AreDrawn, AreLengths, as_long_as, call_of_run, most_length, picked};
ghost use Rattle.qc_odds.specs.Pools.{pool_of};

use crate::draws::draw;
use crate::pool::pick;
use qc_model::{Instance, Task};
use qc_num::Tick;
use qc_past::{Past, PastTask};

/// So many ticks, as much longer or shorter as a past task was, rounded up.
fn stretched(ticks: Tick, planned: u32, real: u32) -> Tick
    requires ticks { ticks ≤ MOST_WORK }
    requires some { 1 ≤ ticks }
    requires planned { 1 ≤ planned }
    requires real { 1 ≤ real }
    requires unit { real ≤ most_times * planned }
    ensures ticks { result ≡ div_ceil (ticks * real) planned }
    ensures some { 1 ≤ result }
    ensures few { result ≤ most_length }
{
    (ticks * u64::from(real)).div_ceil(u64::from(planned))
}

/// How long a task takes that is as much longer or shorter than planned as a past one was.
fn as_long_as(task: &Task, past: &PastTask) -> Tick
    requires some { 1 ≤ task.now.ticks }
    requires few { task.now.ticks ≤ MOST_WORK }
    requires past { IsPastTask past.now }
    ensures ticks { result ≡ as_long_as task.now past.now }
    ensures some { 1 ≤ result }
    ensures few { result ≤ most_length }
{
    stretched(task.ticks, past.planned, past.real)
}

/// How long a task takes in a run that draws from these past tasks.
fn length_in(call: &[PastTask], seed: u32, run: u32, task: &Task) -> Tick
    requires some { 1 ≤ length call.now }
    requires past { All IsPastTask call.now }
    requires ticks { 1 ≤ task.now.ticks }
    requires few { task.now.ticks ≤ MOST_WORK }
    ensures ticks { result
        ≡ as_long_as task.now (picked (pool_of task.now call.now) (draw seed run (task_text task.now))) }
    ensures some { 1 ≤ result }
    ensures few { result ≤ most_length }
{
    let number = draw(seed, run, task.text().as_bytes());
    as_long_as(task, pick(task, call, number))
}

/// The past tasks of the call from which a run draws.
fn call_of_run(past: &Past, seed: u32, run: u32) -> &[PastTask]
    ensures call { result.now ≡ tasks_of_call past.now (call_of_run past.now seed run) }
    ensures some { 1 ≤ length result.now }
    ensures past { All IsPastTask result.now }
{
    let calls = u32::from(past.call_count());
    past.call((draw(seed, run, b"") % calls) as u16)
}

/// The lengths that all tasks take in a run, from 1: drawn from those of one past call. They hang on the
/// past tasks, seed and run, and on each task's name, phase and planned length alone, so that two plans of one list meet
/// the same lengths.
pub fn lengths(past: &Past, inst: &Instance, seed: u32, run: u32, lengths: &mut [Tick])
    requires { length lengths.old ≡ length inst.now.tasks }
    ensures drawn { AreDrawn past.now inst.now seed run lengths.new }
    ensures lengths { AreLengths inst.now lengths.new }
{
    let call = call_of_run(past, seed, run);
    for j in 0..inst.task_count() {
        lengths[j as usize] = length_in(call, seed, run, &inst.task(j));
    }
}
