//! What is left to do in a state.

ghost use Rattle.std.specs.Prelude.{◌≤◌};

use crate::hatch::Hatch;
use qc_model::{MOST_CRANES, MOST_HATCHES};

/// A hatch that has tasks left, in ticks.
#[derive(Clone, Copy)]
pub(crate) struct Rest {
    /// Its bay times the ticks of travel per bay.
    pub(crate) place: i64,
    /// The length of the tasks that are left.
    pub(crate) work: i64,
    /// When the first of them can start at the least.
    pub(crate) least: i64,
}

/// The hatches that have tasks left, along the ship.
#[derive(Drop)]
pub(crate) struct Rests {
    rests: [Rest; MOST_HATCHES as usize],
    count: usize,
    ghost in_range: { count ≤ 60 },
}

impl Rests {
    /// None.
    pub(crate) fn none() -> Rests {
        let nothing = Rest {
            place: 0,
            work: 0,
            least: 0,
        };
        Rests {
            rests: [nothing; MOST_HATCHES as usize],
            count: 0,
        }
    }

    /// One more; where there is no room, none is added.
    pub(crate) fn add(&mut self, rest: Rest) {
        if self.count < MOST_HATCHES as usize {
            self.rests[self.count] = rest;
            self.count += 1;
        }
    }

    /// All, along the ship.
    pub(crate) fn as_slice(&self) -> &[Rest] {
        &self.rests[..self.count]
    }
}

/// When a hatch's next task can start at the least, with the cranes whose events are still to come;
/// `None` where there is no such crane. A line is when a crane could be at place 0.
pub(crate) fn least_start(
    hatch: &Hatch,
    events: &[usize; MOST_CRANES as usize],
    lines: &[i64; MOST_CRANES as usize],
    now: usize,
) -> Option<i64> {
    let mut least: Option<i64> = None;
    for crane in 0..MOST_CRANES as usize {
        if events[crane] > now {
            let there = lines[crane].wrapping_add(hatch.place);
            let start = there.max(hatch.free[crane]);
            least = Some(least.map_or(start, |other| other.min(start)));
        }
    }
    least
}
