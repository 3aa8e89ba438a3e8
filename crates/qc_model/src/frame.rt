//! What cranes have spent.

use qc_num::{Bay, Tick};

/// What a crane has spent on the tasks that it has, whatever else comes.
#[derive(Clone, Copy)]
pub struct Frame {
    /// Whether it has tasks.
    pub works: bool,
    /// The ticks that are spent at the least: its wait, its tasks, the way to them, and waiting for its
    /// neighbours.
    pub gone: Tick,
    /// How far down it comes at no further cost, as a bay.
    pub low: Bay,
    /// How far up it comes at no further cost, as a bay.
    pub high: Bay,
}
