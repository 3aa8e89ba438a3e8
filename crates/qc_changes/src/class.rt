//! What becomes of a container.

/// What becomes of a container from one plan to the other.
#[derive(Clone, Copy, Debug, PartialEq, Eq)]
pub enum Class {
    /// Only the first plan has it.
    Discharged,
    /// Only the second plan has it.
    Loaded,
    /// Both plans have it, at different cells.
    Restowed,
    /// Both plans have it at one cell, which is over one that is worked: it goes and comes back.
    Lifted,
    /// Both plans have it at one cell, and it isn't touched.
    Staying,
}
