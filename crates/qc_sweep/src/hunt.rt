//! What the sweeps have come to so far.

ghost use Rattle.std.specs.Prelude.{◌≡◌, IfSome};
ghost use Rattle.qc_model.specs.Seen.{seen};
ghost use Rattle.qc_sweep.specs.Hunts.{AreParts};
ghost use Rattle.qc_sweep.specs.Plans.{IsFirstPlan};

use crate::going::Going;
use crate::schedule::{better, end_of, schedule_of};
use crate::sweep::sweep;
use qc_model::{Direction, Instance};
use qc_num::{OutOfMemory, Tick, lesser};
use qc_part::UpwardView;
use std::alloc::Global;

/// Both parts of an instance.
#[derive(Drop)]
pub(crate) struct Parts {
    pub(crate) up: UpwardView,
    pub(crate) down: UpwardView,
}

/// A crane for each task of a part, where there is one, and when the schedule of these cranes ends; later than any where
/// there is none.
#[derive(Drop)]
pub(crate) struct Start {
    pub(crate) cranes: Vec<Option<u16>>,
    pub(crate) end: Tick,
}

/// What the sweeps have come to so far.
#[derive(Drop)]
pub(crate) struct Hunt {
    /// A tick before which nothing is expected to end, upward and downward.
    pub(crate) low_up: Tick,
    pub(crate) low_down: Tick,
    /// The least end of what a sweep found, where pairs that are apart or ordered don't count.
    pub(crate) cap: Option<Tick>,
    /// The best schedule.
    pub(crate) best: Option<Going>,
    /// The best cranes, upward and downward.
    pub(crate) up: Start,
    pub(crate) down: Start,
    /// Of how many states the children may still be made.
    pub(crate) effort: usize,
}

impl Hunt {
    /// The lesser of both low ticks.
    pub(crate) fn low(&self) -> Tick {
        self.low_up.min(self.low_down)
    }

    /// The low tick of a way.
    fn low_of(&self, way: Direction) -> Tick {
        match way {
            Direction::Up => self.low_up,
            Direction::Down => self.low_down,
        }
    }

    /// Nothing ends before this tick that way.
    fn raise_low(&mut self, way: Direction, low: Tick)
        ensures { self.new.best ≡ self.old.best }
    {
        match way {
            Direction::Up => self.low_up = low,
            Direction::Down => self.low_down = low,
        }
    }

    /// Keeps cranes for a way where their schedule ends before that of those it keeps.
    fn keep(&mut self, way: Direction, cranes: Vec<Option<u16>>, end: Tick)
        ensures { self.new.best ≡ self.old.best }
    {
        match way {
            Direction::Up => {
                if end < self.up.end {
                    self.up = Start { cranes, end };
                }
            }
            Direction::Down => {
                if end < self.down.end {
                    self.down = Start { cranes, end };
                }
            }
        }
    }
}

/// Sweeps one part for all to end before the tick, where the effort that is left allows for so many
/// states a layer.
fn sweep_part(
    alloc: Global,
    inst: &Instance,
    part: &UpwardView,
    way: Direction,
    hunt: &mut Hunt,
    end: Tick,
    width: usize,
) -> Result<(), OutOfMemory>
    requires seen { part.now ≡ seen inst.now way }
    requires best { IfSome hunt.old.best (IsFirstPlan inst.now) }
    ensures { IfSome hunt.new.best (IsFirstPlan inst.now) }
{
    let cost = width.saturating_mul(part.events().len());
    if cost == 0 || cost > hunt.effort || hunt.low_of(way) >= end {
        return Ok(());
    }
    let swept = sweep(alloc, part, end, width)?;
    hunt.effort = hunt.effort.saturating_sub(swept.effort);
    match swept.found {
        Some(found) => {
            hunt.cap = Some(lesser(hunt.cap, found.latest.min(end)));
            let plan = schedule_of(alloc, inst, way, part.instance(), found.cranes.as_slice())?;
            hunt.keep(way, found.cranes, end_of(inst, &plan));
            let best = hunt.best.take();
            hunt.best = better(inst, best, plan);
        }
        None => {
            if !swept.cut {
                hunt.raise_low(way, end);
            }
        }
    }
    Ok(())
}

/// Sweeps both parts for all to end before the tick, and the second one for less where something was
/// found in the first.
pub(crate) fn trial(
    alloc: Global,
    inst: &Instance,
    parts: &Parts,
    hunt: &mut Hunt,
    end: Tick,
    width: usize,
) -> Result<(), OutOfMemory>
    requires parts { AreParts inst.now parts.now }
    requires best { IfSome hunt.old.best (IsFirstPlan inst.now) }
    ensures { IfSome hunt.new.best (IsFirstPlan inst.now) }
{
    sweep_part(alloc, inst, &parts.up, Direction::Up, hunt, end, width)?;
    let end = lesser(hunt.cap, end);
    sweep_part(alloc, inst, &parts.down, Direction::Down, hunt, end, width)
}
