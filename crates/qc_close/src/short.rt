//! Whether all that is left can be done by a tick, and the last end before which it can't.

ghost use Rattle.std.specs.Prelude.{◌≡◌, ◌&&◌, ◌+◌, ◌<◌, ◌≤◌, ◌^◌, map, nat_lt, sum};
ghost use Rattle.std.specs.List.{list_any};
ghost use Rattle.qc_close.specs.Model.{Up, Down, along, bays_to, is_served, is_short, last_before, room};
ghost use Rattle.qc_close.specs.Counts.{IsWalked};
ghost use Rattle.qc_close.specs.Tried.{tried};
ghost use Rattle.qc_close.specs.Lasts.{IsLast};

use crate::count::Count;
use crate::sums::{bays_to, room};
use crate::walk::Walk;
use qc_model::Direction;
use qc_num::Tick;

/// The greatest multiple of a number below an end.
fn last_before(step: Tick, end: Tick) -> Tick
    requires { 0 < step }
    ensures tick { result ≡ last_before step end }
    ensures bound { result ≤ end }
{
    end.saturating_sub(1) / step * step
}

impl Count<'_> {
    /// Whether some crane isn't done by a tick with the tasks that it has.
    fn is_late(&self, tick: Tick) -> bool
        ensures { result ≡ list_any (λ f. f.works && nat_lt tick f.gone) self.now.frames.now }
    {
        self.frames
            .iter()
            .any(|frame| frame.works && tick < frame.gone)
    }

    /// The ticks that are left to all cranes together, once they have gone up to a bay and down to another.
    fn all_rooms(&self, tick: Tick, low: u16, high: u16) -> Tick
        requires { tick < 2 ^ 56 }
        ensures { result ≡ sum (map (λ f. room (tried self.now tick)
            (bays_to Up f low + bays_to Down f high) f) self.now.frames.now) }
    {
        let mut ticks = 0;
        for frame in self.frames {
            let bays = bays_to(Direction::Up, frame, low) + bays_to(Direction::Down, frame, high);
            ticks += room(self.travel, tick, frame, bays);
        }
        ticks
    }

    /// Whether all cranes together have the time for what is counted from both ends.
    fn has_room(&self, tick: Tick, up: Walk, down: Walk) -> bool
        requires tick { tick < 2 ^ 56 }
        requires work { up.work ≤ 2 ^ 50 }
        requires legs { (up.legs ≤ 2 ^ 37) × (down.legs ≤ 2 ^ 37) }
        requires up { IsWalked (tried self.now tick) Up (along (tried self.now tick) Up) up }
        requires down { IsWalked (tried self.now tick) Down (along (tried self.now tick) Down) down }
        ensures { result ≡ is_served (tried self.now tick) }
    {
        match up.last {
            None => true,
            Some(low) => match down.last {
                None => true,
                Some(high) => {
                    up.work + self.travel * (up.legs + down.legs)
                        <= self.all_rooms(tick, low.bay, high.bay)
                }
            },
        }
    }

    /// Whether the count lets cranes do by a tick what is left to them.
    fn is_served(&self, tick: Tick) -> bool
        requires { tick < 2 ^ 56 }
        ensures { result ≡ is_served (tried self.now tick) }
    {
        match self.walk_along(tick, Direction::Up) {
            None => false,
            Some(up) => match self.walk_along(tick, Direction::Down) {
                None => false,
                Some(down) => self.has_room(tick, up, down),
            },
        }
    }

    /// Whether the count shows that not all can be done before an end.
    pub(crate) fn is_short(&self, end: Tick) -> bool
        requires { end < 2 ^ 56 }
        ensures { result ≡ is_short (tried self.now (last_before self.now.step end)) }
    {
        let tick = last_before(self.step, end);
        self.is_late(tick) || !self.is_served(tick)
    }

    /// The greatest end up to a limit for which it shows so, and 0 where there is none.
    pub(crate) fn last_short(&self, limit: Tick) -> Tick
        requires { limit < 2 ^ 55 }
        ensures { IsLast
            (λ end. is_short (tried self.now (last_before self.now.step end))) limit result }
    {
        let mut low = 0;
        let mut high = limit + 1;
        'halving: while low + 1 < high {
            let middle = low + (high - low) / 2;
            if self.is_short(middle) {
                low = middle;
            } else {
                high = middle;
            }
        }
        low
    }
}
