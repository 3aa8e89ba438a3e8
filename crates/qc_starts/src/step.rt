//! What a decision leads to.

/// What a decision leads to.
#[derive(Clone, Copy, PartialEq, Eq)]
pub enum Step {
    /// Starts meet the node.
    Raised,
    /// No starts do: tasks are forced to start after each other in a ring.
    Cycle,
}
