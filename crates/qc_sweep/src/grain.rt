//! The grain of time: all lengths, releases, ready times and ways are multiples of it.

use qc_model::Instance;
use qc_num::{Tick, gcd};

/// The greatest number of ticks of which the travel of a bay, all tasks, their releases and all
/// ready times are multiples.
pub(crate) fn grain(inst: &Instance) -> Tick {
    let mut ticks = inst.travel();
    for task in inst.tasks() {
        ticks = gcd(task.ticks, ticks);
        ticks = gcd(task.release, ticks);
    }
    for crane in inst.cranes() {
        ticks = gcd(crane.ready, ticks);
    }
    ticks
}

/// The least multiple of a grain that is at least this tick; the tick itself where the grain is 0.
pub(crate) fn up_to_grain(tick: Tick, grain: Tick) -> Tick {
    if grain == 0 {
        return tick;
    }
    let over = tick % grain;
    if over == 0 {
        tick
    } else {
        tick.saturating_add(grain - over)
    }
}
