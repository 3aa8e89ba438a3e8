//! Which crane does a task, by the states that led to the last one.

use crate::node::Step;
use crate::trail::Trail;
use qc_num::OutOfMemory;
use qc_part::{Event, UpwardView};
use std::alloc::Global;

/// Gives the tasks that were done at an event its crane.
fn give(cranes: &mut Vec<Option<u16>>, event: &Event, step: Step) {
    for number in step.from..step.to {
        let task = event.block.first as usize + number as usize;
        if task < cranes.len() {
            cranes[task] = Some(event.crane);
        }
    }
}

/// The crane of each task, from how the last state was come to back to the first one.
pub(crate) fn cranes_of(
    alloc: Global,
    part: &UpwardView,
    trail: &Trail,
    last: Step,
) -> Result<Vec<Option<u16>>, OutOfMemory> {
    let mut cranes = vec![in alloc; None; part.instance().task_count() as usize]?;
    let events = part.events();
    let mut step = last;
    for e in (0..events.len()).rev() {
        give(&mut cranes, &events[e], step);
        if e == 0 {
            break;
        }
        let Some(before) = trail.step(e - 1, step.parent) else {
            break;
        };
        step = before;
    }
    Ok(cranes)
}
