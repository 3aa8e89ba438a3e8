//! A ship read upward.

ghost use Rattle.std.specs.Prelude.{◌≡◌, ◌≤◌, length, IfOk, IfSome};
ghost use Rattle.qc_model.specs.Numbers.{most_hatches};

use crate::event::Event;
use crate::events::{Numbers, events_of, numbers_of};
use crate::hatch::{Hatch, hatches_of};
use crate::places::{Stands, first_front, stands_of};
use crate::rest::{Rest, Rests, least_start};
use crate::rooms::{Cranes, room_slack};
use crate::state::State;
use crate::windows::window_slack;
use qc_model::{Instance, MOST_CRANES, MOST_HATCHES, copy};
use qc_num::{OutOfMemory, Tick};
use std::alloc::Global;
use std::marker::Model;

/// A tick that no crane comes to, and to which a way can be added.
const NEVER: i64 = 1 << 60;

/// A ship read upward: its hatches along the ship, and the events in the order in which tasks wait
/// for each other. It keeps a copy of the instance, and as that it is seen.
pub struct UpwardView {
    inst: Instance,
    hatches: Vec<Hatch>,
    events: Vec<Event>,
    numbers: Numbers,
    stands: Stands,
}

impl Model for UpwardView {
    ghost use Rattle.std.specs.Prelude.{◌≤◌, vec_len};
    ghost use Rattle.qc_model.specs.Instance.{InstanceView};

    ghost Value = { InstanceView };

    ghost view = { λ part. part.inst };

    ghost invariant = { λ part. vec_len part.hatches ≤ 60 };
}

// By hand, so that it is let go by one call wherever it is held.
impl Drop for UpwardView {
    fn drop(self) {
        let UpwardView {
            inst: _,
            hatches: _,
            events: _,
            numbers: _,
            stands: _,
        } = self;
    }
}

impl UpwardView {
    /// The part that reads this instance upward; for the way down it is given the mirror. `None` where
    /// more than 60 hatches have tasks.
    pub fn open(alloc: Global, inst: &Instance) -> Result<Option<UpwardView>, OutOfMemory>
        ensures { IfOk result (λ opened. IfSome opened (λ part. part ≡ inst.now)) }
    {
        let hatches = hatches_of(alloc, inst)?;
        if hatches.len() > MOST_HATCHES as usize {
            return Ok(None);
        }
        let events = events_of(alloc, inst, hatches.as_slice())?;
        let numbers = numbers_of(events.as_slice());
        Ok(Some(UpwardView {
            inst: copy(alloc, inst)?,
            hatches,
            events,
            numbers,
            stands: stands_of(inst),
        }))
    }

    /// The instance that is read.
    pub fn instance(&self) -> &Instance
        ensures { result.now ≡ self.now }
    {
        &self.inst
    }

    /// The hatches with tasks, along the ship.
    pub fn hatches(&self) -> &[Hatch]
        ensures { length result.now ≤ most_hatches }
    {
        self.hatches.as_slice()
    }

    /// The events in their order.
    pub fn events(&self) -> &[Event] {
        self.events.as_slice()
    }

    /// Whether no event behind this one is one of this hatch.
    pub fn is_last(&self, e: usize, hatch: u8) -> bool {
        let mut behind = self.events.iter().skip(e.saturating_add(1));
        behind.all(|event| event.hatch != hatch)
    }

    /// The state before any event: nothing is done, and each crane stands at its start bay until it is
    /// ready.
    pub fn root(&self) -> State {
        let mut fronts = [0; MOST_CRANES as usize];
        for crane in 0..self.inst.crane_count() {
            fronts[crane as usize] = first_front(&self.inst, crane);
        }
        State {
            done: [0; MOST_HATCHES as usize],
            fronts,
        }
    }

    /// When each crane could be at place 0.
    fn lines(&self, state: &State) -> [i64; MOST_CRANES as usize] {
        let mut lines = [NEVER; MOST_CRANES as usize];
        for crane in 0..self.inst.crane_count() {
            let front = state.fronts[crane as usize];
            lines[crane as usize] = front.wrapping_add(self.stands.shifts[crane as usize]);
        }
        lines
    }

    /// How far each crane then stands from where it could be.
    fn turns(&self, lines: &[i64; MOST_CRANES as usize]) -> [i64; MOST_CRANES as usize] {
        let mut turns = [NEVER; MOST_CRANES as usize];
        for crane in 0..self.inst.crane_count() {
            turns[crane as usize] = self.stands.berths[crane as usize].wrapping_sub(
                lines[crane as usize],
            );
        }
        turns
    }

    /// The hatches that have tasks left; `None` where no crane comes to one of them any more.
    fn rests(&self, state: &State, e: usize, lines: &[i64; MOST_CRANES as usize]) -> Option<Rests> {
        let mut rests = Rests::none();
        for (number, hatch) in self.hatches.iter().enumerate() {
            let done = state.done[number];
            if done < hatch.block.count {
                rests.add(Rest {
                    place: hatch.place,
                    work: hatch.block.work_from(done),
                    least: least_start(hatch, &self.numbers[number], lines, e)?,
                });
            }
        }
        Some(rests)
    }

    /// How many ticks are left before the event of this number where all that a state leaves is to end
    /// before a tick; `None` where it can't. An estimate, of which nothing is said.
    pub fn slack(&self, state: &State, e: usize, end: Tick) -> Option<i64> {
        let last = i64::try_from(end.checked_sub(1)?).ok()?;
        let mut lines = self.lines(state);
        let rests = self.rests(state, e, &lines)?;
        let mut turns = self.turns(&lines);
        lines.sort_unstable();
        turns.sort_unstable();
        let cranes = Cranes {
            lines,
            turns,
            count: self.inst.crane_count(),
        };
        let windows = window_slack(rests.as_slice(), self.stands.gap, last)?;
        let rooms = room_slack(rests.as_slice(), &cranes, last)?;
        Some(windows.min(rooms))
    }
}
