//! Events and children of states.

ghost use Rattle.std.specs.Prelude.{◌<◌};

use crate::hatch::Block;
use crate::state::State;
use qc_model::MOST_CRANES;
use qc_num::Tick;

/// A hatch and a crane that reaches it. Events are in order of how far along the rail the hatch lies
/// for the crane, and then of the cranes, the lower first.
#[derive(Clone, Copy, PartialEq, Eq, PartialOrd, Ord)]
pub struct Event {
    /// How far along the rail, in ticks of travel. Each crane counts from a place one gap lower than the
    /// crane above it. So of two tasks the one that lies less far is never the one that waits.
    pub along: i64,
    /// The crane's number, from 0.
    pub crane: u16,
    /// The hatch's number along the ship, from 0.
    pub hatch: u8,
    /// The hatch's tasks.
    pub block: Block,
    /// When the crane can first be at the tasks.
    pub free: i64,
    pub ghost is_crane: { crane < 8 },
    pub ghost is_hatch: { hatch < 60 },
}

/// What a state becomes at an event where so many tasks of the hatch are done behind it.
#[derive(Clone, Copy, PartialEq, Eq)]
pub struct Child {
    pub state: State,
    /// When the last of the tasks that are done at the event ends; `None` where none is.
    pub end: Option<Tick>,
}

impl Event {
    /// What a state becomes where so many tasks of the hatch are done behind the event: the crane does
    /// them in a row, and it and those below it can go on from there.
    pub fn child(&self, state: &State, count: u8) -> Child {
        let from = state.done[self.hatch as usize];
        if count == from {
            return Child {
                state: *state,
                end: None,
            };
        }
        let ticks = self.block.work_between(from, count);
        let end = self.start(state).wrapping_add(ticks);
        let mut worked = *state;
        worked.done[self.hatch as usize] = count;
        worked.fronts = raised(&state.fronts, self.crane, end.wrapping_sub(self.along));
        Child {
            state: worked,
            end: Some(end.max(0) as Tick),
        }
    }

    /// When the first of the tasks starts: not before the crane can be there, and not before its front.
    fn start(&self, state: &State) -> i64 {
        let front = state.fronts[self.crane as usize];
        self.along.wrapping_add(front).max(self.free)
    }
}

/// The fronts up to this crane's raised to one, where they are lower.
fn raised(
    fronts: &[i64; MOST_CRANES as usize],
    crane: u16,
    front: i64,
) -> [i64; MOST_CRANES as usize]
    requires { crane < 8 }
{
    let mut raised = *fronts;
    for other in 0..crane + 1 {
        let old = fronts[other as usize];
        raised[other as usize] = old.max(front);
    }
    raised
}
