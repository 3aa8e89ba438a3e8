//! What a search decides.

/// What a search decides on its way to a node. A node is the list of its decisions.
#[derive(Clone, Copy, PartialEq, Eq)]
pub enum Decision {
    /// The task, and the crane that does it.
    Assign(u16, u16),
    /// Of two apart tasks the one that is done first, and the other.
    Order(u16, u16),
}
