//! The ends at which rounds of a search aim, between what is shown and the best end that is known.

use crate::outcome::is_more;
use qc_model::Instance;
use qc_num::{Bound, Tick, gcd};

/// The greatest number of ticks of which the travel of a bay, all tasks, their releases and all ready times are
/// multiples.
fn grain(inst: &Instance) -> Tick {
    let mut ticks = inst.travel();
    for task in inst.tasks() {
        ticks = gcd(task.ticks, ticks);
        ticks = gcd(task.release, ticks);
    }
    for crane in inst.cranes() {
        ticks = gcd(crane.ready, ticks);
    }
    ticks
}

/// What is left to be shown: it narrows with each round.
#[derive(Drop)]
pub(crate) struct Gap {
    /// All ends are multiples of it.
    grain: Tick,
    /// How many grains above what is shown the next aim is, as long as each is shown.
    step: Tick,
    /// The least aim that wasn't shown; `Never` where each was.
    failed: Bound,
}

impl Gap {
    /// The whole gap of an instance.
    pub(crate) fn of(inst: &Instance) -> Gap {
        Gap {
            grain: grain(inst),
            step: 1,
            failed: Bound::Never,
        }
    }

    /// The next aim between what is shown and the best end that is known, if there is one: further up as long as each aim
    /// is shown, and then in the middle below the least that wasn't.
    pub(crate) fn aim(&self, shown: Bound, end: Bound) -> Option<Bound> {
        let (Bound::Least(low), Bound::Least(high)) = (shown, end.min(self.failed)) else {
            return None;
        };
        let further = low.saturating_add(self.step.saturating_mul(self.grain));
        if self.failed == Bound::Never && further < high {
            return Some(Bound::Least(further));
        }
        self.middle(low, high)
    }

    /// The aim in the middle between two ends; none where there is no multiple of the grain between them.
    fn middle(&self, low: Tick, high: Tick) -> Option<Bound> {
        let grains = high.saturating_sub(low).checked_div(self.grain)? / 2;
        if grains == 0 {
            return None;
        }
        let ticks = grains.saturating_mul(self.grain);
        Some(Bound::Least(low.saturating_add(ticks)))
    }

    /// Narrows the gap behind a round at this aim, behind which this is shown.
    pub(crate) fn narrow(&mut self, aim: Bound, shown: Bound) {
        if is_more(aim, shown) {
            self.failed = aim;
        } else {
            self.step = self.step.saturating_mul(2);
        }
    }
}
