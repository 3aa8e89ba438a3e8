//! What one pass over the events remembers.

use qc_model::{MOST_CRANES, MOST_HATCHES};

/// What a pass over the events remembers before an event: how much is done, and how soon each crane
/// can go on. States are in order of the counts, then of the fronts.
#[derive(Clone, Copy, PartialEq, Eq, PartialOrd, Ord)]
pub struct State {
    /// Of each hatch, along the ship, how many of its tasks are done, in the order of phases; 0 behind
    /// the last hatch.
    pub done: [u8; MOST_HATCHES as usize],
    /// Of each crane, in ticks and of any sign: a task to come that lies so far along the rail for this
    /// crane starts that much later than the front, or later still. 0 behind the last crane.
    pub fronts: [i64; MOST_CRANES as usize],
}

impl State {
    /// Whether all that is done in the other state is done in this one, and no crane is later.
    pub fn covers(&self, other: &State) -> bool {
        self.has_done(other) && self.is_as_soon(other)
    }

    /// Whether of each hatch as many tasks are done as in the other state.
    fn has_done(&self, other: &State) -> bool {
        for hatch in 0..MOST_HATCHES as usize {
            if self.done[hatch] < other.done[hatch] {
                return false;
            }
        }
        true
    }

    /// Whether no crane's front is behind that in the other state.
    fn is_as_soon(&self, other: &State) -> bool {
        for crane in 0..MOST_CRANES as usize {
            if self.fronts[crane] > other.fronts[crane] {
                return false;
            }
        }
        true
    }
}
