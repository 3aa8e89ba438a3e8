//! How cranes may move.

/// Whether cranes go up along the ship, each from its first task on, or to and fro.
#[derive(Clone, Copy, PartialEq, Eq)]
pub enum Turn {
    /// Each goes up from its first task on.
    OneWay,
    /// Each goes up or down as it likes.
    Free,
}
