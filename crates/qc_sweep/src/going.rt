//! A plan with its way.

use qc_model::{Direction, Schedule};

/// A schedule that cranes may follow, and the way in which it is seen.
#[derive(Drop)]
pub struct Going {
    pub sched: Schedule,
    /// Its direction where cranes go one way, and up where they go as they like.
    pub way: Direction,
}
