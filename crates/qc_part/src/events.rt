//! The events of a ship.

ghost use Rattle.std.specs.Prelude.{◌<◌, ◌≤◌, length};
ghost use Rattle.qc_model.specs.Numbers.{most_hatches};

use crate::event::Event;
use crate::hatch::Hatch;
use crate::places::shift;
use qc_model::{Instance, MOST_CRANES, MOST_HATCHES};
use qc_num::OutOfMemory;
use std::alloc::Global;

/// Of each hatch one more than the number of its event with each crane, and 0 where there is none.
pub(crate) type Numbers = [[usize; MOST_CRANES as usize]; MOST_HATCHES as usize];

/// Adds the events of a hatch.
fn add_events(
    inst: &Instance,
    hatch: &Hatch,
    number: u8,
    events: &mut Vec<Event>,
) -> Result<(), OutOfMemory>
    requires { number < 60 }
{
    for crane in 0..inst.crane_count() {
        if hatch.reached[crane as usize] {
            let event = Event {
                along: hatch.place.saturating_add(shift(inst, crane)),
                crane,
                hatch: number,
                block: hatch.block,
                free: hatch.free[crane as usize],
            };
            events.push(event)?;
        }
    }
    Ok(())
}

/// The events in their order.
pub(crate) fn events_of(
    alloc: Global,
    inst: &Instance,
    hatches: &[Hatch],
) -> Result<Vec<Event>, OutOfMemory>
    requires { length hatches.now ≤ most_hatches }
{
    let mut events = Vec::new(alloc);
    for number in 0..hatches.len() as u8 {
        add_events(inst, &hatches[number as usize], number, &mut events)?;
    }
    events.sort_unstable();
    Ok(events)
}

/// The numbers of these events.
pub(crate) fn numbers_of(events: &[Event]) -> Numbers {
    let mut numbers = [[0; MOST_CRANES as usize]; MOST_HATCHES as usize];
    for (number, event) in events.iter().enumerate() {
        numbers[event.hatch as usize][event.crane as usize] = number + 1;
    }
    numbers
}
