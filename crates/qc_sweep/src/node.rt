//! What a sweep keeps of a state.

use qc_num::Tick;
use qc_part::State;

/// How a state was come to.
#[derive(Clone, Copy, PartialEq, Eq, PartialOrd, Ord)]
pub(crate) struct Step {
    /// The number of the state before, in its layer.
    pub(crate) parent: u32,
    /// Of the event's hatch, the tasks that were done at it: from this number on,
    pub(crate) from: u8,
    /// to before this one.
    pub(crate) to: u8,
}

/// A state that a sweep met. Nodes are in order of their states, then of the latest end.
#[derive(Clone, Copy, PartialEq, Eq, PartialOrd, Ord)]
pub(crate) struct Node {
    pub(crate) state: State,
    /// When the last task so far ends.
    pub(crate) latest: Tick,
    /// How many ticks are left for what is left.
    pub(crate) slack: i64,
    pub(crate) step: Step,
}
