//! Pairs of tasks.

/// Two tasks by their numbers, from 0. Pairs are in order of the first task, then of the second.
#[derive(Clone, Copy, PartialEq, Eq, PartialOrd, Ord)]
pub struct Pair {
    pub first: u16,
    pub second: u16,
}
