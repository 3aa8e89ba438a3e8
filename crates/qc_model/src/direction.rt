//! The way in which a schedule goes.

/// The way in which all cranes of a schedule move once they have begun to work.
#[derive(Clone, Copy, PartialEq, Eq)]
pub enum Direction {
    /// With rising bays.
    Up,
    /// With falling bays.
    Down,
}
