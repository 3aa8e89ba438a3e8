//! How far apart packed tasks may lie at most. It tells cheaply which lists aren't worth more: no
//! end that is shown hangs on it.

ghost use Rattle.std.specs.Prelude.{◌<◌, All, length};

use qc_close::Crew;
use qc_model::{Instance, bays_up};
use qc_num::{Bay, Tick};

/// Places along the rail from one to another.
#[derive(Clone, Copy)]
struct Band {
    low: Bay,
    high: Bay,
}

/// The band that holds two.
fn joined(one: Option<Band>, other: Band) -> Band {
    match one {
        None => other,
        Some(one) => Band {
            low: one.low.min(other.low),
            high: one.high.max(other.high),
        },
    }
}

/// The bays of a band.
fn bays(band: Band) -> Tick {
    bays_up(band.low, band.high)
}

/// A band of bays as it lies for a crane: each crane counts from a place a gap further along the rail.
fn for_crane(inst: &Instance, crane: u16, band: Band) -> Band {
    let gaps = inst.gap().saturating_mul(Bay::from(crane));
    Band {
        low: band.low.saturating_sub(gaps),
        high: band.high.saturating_sub(gaps),
    }
}

/// The fewest bays where one crane has all tasks of a band that have no crane, beside those that have
/// one; as many as there can be where no crane reaches them all.
fn with_open(inst: &Instance, fixed: Option<Band>, open: Band) -> Tick {
    let mut least = Tick::MAX;
    for crane in 0..inst.crane_count() {
        let post = inst.post(crane);
        if post.from <= open.low && open.high <= post.to {
            least = least.min(bays(joined(fixed, for_crane(inst, crane, open))));
        }
    }
    least
}

/// The most bays among which tasks lie that are packed.
pub(crate) fn spread(crew: &Crew, tasks: &[u16]) -> Tick
    requires { All (λ j. j < length crew.now.inst.tasks) tasks.now }
{
    let inst = crew.instance();
    let mut fixed: Option<Band> = None;
    let mut open: Option<Band> = None;
    for task in tasks {
        let bay = inst.task(*task).bay;
        let here = Band {
            low: bay,
            high: bay,
        };
        match crew.crane_of(*task) {
            Some(crane) => fixed = Some(joined(fixed, for_crane(inst, crane, here))),
            None => open = Some(joined(open, here)),
        }
    }
    match (fixed, open) {
        (_, Some(open)) => with_open(inst, fixed, open),
        (Some(fixed), None) => bays(fixed),
        (None, None) => 0,
    }
}
