//! Past tasks, call by call.

ghost use Rattle.std.specs.Prelude.{◌≡◌, ◌≤◌, ◌<◌, ◌+◌, length, All, IfOk};
ghost use Rattle.qc_past.specs.Past.{ArePast, IsPastTask, begins, call_start, call_starts, most_past, tasks_of_call};

use crate::task::PastTask;
use qc_num::OutOfMemory;
use std::alloc::Global;
use std::marker::Model;

/// The most past tasks.
pub const MOST_PAST: usize = 10_000;

/// Tasks that were worked in earlier calls: 1 to 10,000 of them, of which those of one call stand together, at
/// most 240.
#[derive(Drop)]
pub struct Past {
    tasks: Vec<PastTask>,
    /// The places at which calls begin.
    starts: Vec<u16>,
}

impl Model for Past {
    ghost use Rattle.std.specs.Prelude.{List};
    ghost use Rattle.qc_past.specs.declared.task.PastTask.{PastTask};
    ghost use Rattle.qc_past.specs.Kept.{IsKept};

    ghost Value = { List PastTask };

    ghost view = { λ past. past.tasks.items };

    ghost invariant = { λ past. IsKept past.tasks.items past.starts.items };
}

/// Whether a call begins with the task at this place.
fn begins(tasks: &[PastTask], at: usize) -> bool
    requires { at < length tasks.now }
    ensures { result ≡ begins tasks.now at }
{
    at == 0 || tasks[at].call.as_bytes() != tasks[at - 1].call.as_bytes()
}

/// The places at which calls begin.
fn call_starts(alloc: Global, tasks: &[PastTask]) -> Result<Vec<u16>, OutOfMemory>
    requires { length tasks.now ≤ most_past }
    ensures { IfOk result (λ starts. starts.items ≡ call_starts tasks.now) }
{
    let mut starts = Vec::new(alloc);
    for at in 0..tasks.len() {
        if begins(tasks, at) {
            starts.push(at as u16)?;
        }
    }
    Ok(starts)
}

impl Past {
    /// Past tasks in the order of the file.
    pub(crate) fn of(alloc: Global, tasks: Vec<PastTask>) -> Result<Past, OutOfMemory>
        requires { ArePast tasks.items }
        ensures { IfOk result (λ past. past ≡ tasks.items) }
    {
        let Ok(starts) = call_starts(alloc, tasks.as_slice()) else {
            drop(tasks);
            return Err(OutOfMemory);
        };
        Ok(Past { tasks, starts })
    }

    /// All tasks in the order of the file.
    pub fn tasks(&self) -> &[PastTask]
        ensures tasks { result.now ≡ self.now }
        ensures past { ArePast self.now }
    {
        self.tasks.as_slice()
    }

    /// Where a call begins; past the last call, where the tasks end.
    fn start_of(&self, number: usize) -> usize
        ensures { result ≡ call_start self.now number }
    {
        match self.starts.as_slice().get(number) {
            Some(start) => *start as usize,
            None => self.tasks.len(),
        }
    }

    /// Where a call begins, and where the next one does.
    fn range_of(&self, number: usize) -> (usize, usize)
        requires { number < length (call_starts self.now) }
        ensures from { result.0 ≡ call_start self.now number }
        ensures to { result.1 ≡ call_start self.now (number + 1) }
        ensures some { result.0 < result.1 }
        ensures inside { result.1 ≤ length self.now }
        ensures past { ArePast self.now }
    {
        let _tasks = self.tasks();
        (self.start_of(number), self.start_of(number + 1))
    }

    /// How many calls there are.
    pub fn call_count(&self) -> u16
        ensures count { result ≡ length (call_starts self.now) }
        ensures some { 1 ≤ result }
    {
        self.starts.len() as u16
    }

    /// The tasks of a call, by its number in the order of the file, from 0.
    pub fn call(&self, number: u16) -> &[PastTask]
        requires { number < length (call_starts self.now) }
        ensures tasks { result.now ≡ tasks_of_call self.now number }
        ensures some { 1 ≤ length result.now }
        ensures few { length result.now ≤ most_past }
        ensures past { All IsPastTask result.now }
    {
        let (from, to) = self.range_of(number as usize);
        &self.tasks.as_slice()[from..to]
    }
}
