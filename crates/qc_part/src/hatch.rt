//! Hatches with tasks.

ghost use Rattle.std.specs.Prelude.{◌+◌, ◌<◌, ◌≤◌, length};

use qc_dist::{head, in_reach};
use qc_model::{Instance, MOST_CRANES, bays_up, travel_over};
use qc_num::OutOfMemory;
use std::alloc::Global;

/// The most tasks of a hatch, one a phase.
const MOST_PHASES: u16 = 4;

/// The tasks of a hatch, which follow one another in the order of phases.
#[derive(Clone, Copy, PartialEq, Eq, PartialOrd, Ord)]
pub struct Block {
    /// The number of the first task, from 0.
    pub first: u16,
    /// How many tasks there are, 1 to 4.
    pub count: u8,
    /// The ticks of the tasks from each on, together.
    pub work: [i64; MOST_PHASES as usize + 1],
}

impl Block {
    /// The ticks that are left together where so many of the tasks are done.
    pub fn work_from(&self, done: u8) -> i64 {
        self.work.get(done as usize).copied().unwrap_or(0)
    }

    /// The ticks of the tasks from one number of the hatch to before another.
    pub(crate) fn work_between(&self, from: u8, to: u8) -> i64 {
        self.work_from(from).saturating_sub(self.work_from(to))
    }
}

/// A hatch with tasks. Where it stands and its times are in ticks.
#[derive(Clone, Copy)]
pub struct Hatch {
    pub block: Block,
    /// Its bay times the ticks of travel per bay.
    pub place: i64,
    /// Which cranes reach it.
    pub reached: [bool; MOST_CRANES as usize],
    /// When each crane can first be at its tasks.
    pub free: [i64; MOST_CRANES as usize],
}

/// How many tasks a hatch has, of which this is the first.
fn count_from(inst: &Instance, first: u16) -> u16
    requires { first < length inst.now.tasks }
    ensures some { 1 ≤ result }
    ensures few { result ≤ 4 }
    ensures inside { first + result ≤ length inst.now.tasks }
{
    let tasks = inst.tasks();
    let hatch = tasks[first as usize].hatch;
    let mut count = 1;
    for _next in 1..MOST_PHASES {
        let task = first as usize + count as usize;
        if task < tasks.len() && tasks[task].hatch == hatch {
            count += 1;
        }
    }
    count
}

/// The ticks of a hatch's tasks from each on, together.
fn work_of(inst: &Instance, first: u16, count: u16) -> [i64; MOST_PHASES as usize + 1]
    requires few { count ≤ 4 }
    requires inside { first + count ≤ length inst.now.tasks }
    requires all { length inst.now.tasks ≤ 240 }
{
    let mut work: [i64; MOST_PHASES as usize + 1] = [0; MOST_PHASES as usize + 1];
    for task in (0..count).rev() {
        let behind = work[task as usize + 1];
        let ticks = inst.task(first + task).ticks;
        work[task as usize] = behind.saturating_add_unsigned(ticks);
    }
    work
}

/// Which cranes reach a task.
fn reached_by(inst: &Instance, task: u16) -> [bool; MOST_CRANES as usize]
    requires { task < length inst.now.tasks }
{
    let mut reached = [false; MOST_CRANES as usize];
    for crane in 0..inst.crane_count() {
        reached[crane as usize] = in_reach(inst, task, crane);
    }
    reached
}

/// When each crane can first be at a task.
fn free_of(inst: &Instance, task: u16) -> [i64; MOST_CRANES as usize]
    requires { task < length inst.now.tasks }
{
    let mut free = [0; MOST_CRANES as usize];
    for crane in 0..inst.crane_count() {
        free[crane as usize] = head(inst, task, crane) as i64;
    }
    free
}

/// The hatch of which this task is the first.
fn hatch_from(inst: &Instance, first: u16) -> Hatch
    requires { first < length inst.now.tasks }
    ensures some { 1 ≤ result.block.count }
    ensures inside { first + result.block.count ≤ length inst.now.tasks }
{
    let count = count_from(inst, first);
    let place = travel_over(inst, bays_up(0, inst.task(first).bay));
    Hatch {
        block: Block {
            first,
            count: count as u8,
            work: work_of(inst, first, count),
        },
        place: place as i64,
        reached: reached_by(inst, first),
        free: free_of(inst, first),
    }
}

/// The hatches along the ship.
pub(crate) fn hatches_of(alloc: Global, inst: &Instance) -> Result<Vec<Hatch>, OutOfMemory> {
    let mut hatches = Vec::new(alloc);
    let mut next = 0;
    while next < inst.task_count() {
        let hatch = hatch_from(inst, next);
        hatches.push(hatch)?;
        next += u16::from(hatch.block.count);
    }
    hatches.sort_unstable_by_key(|hatch| hatch.place);
    Ok(hatches)
}
