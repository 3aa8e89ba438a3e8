//! What a dispatcher answers.

use qc_num::Tick;

/// Leave for a crane to start a task.
#[derive(Clone, Copy, PartialEq, Eq)]
pub struct Grant {
    /// The task's number, from 0.
    pub task: u16,
    /// The number of its crane in the plan, from 0.
    pub crane: u16,
    /// The tick at which it starts.
    pub at: Tick,
}

/// The task that is reported to be done has no start, or an end already.
#[derive(Clone, Copy, Debug, PartialEq, Eq)]
pub struct NotRunning;
