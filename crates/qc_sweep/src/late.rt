//! Late acceptance: a change is kept where it costs no more than what stood some changes ago.

/// How many changes ago.
const BACK: usize = 300;

/// After so many changes without a fall nothing more is to be hoped for.
const MOST_IDLE: u32 = 9_000;

/// What stood so many changes ago, and since then.
#[derive(Clone, Copy)]
pub(crate) struct Late {
    costs: [i64; BACK],
    at: usize,
    idle: u32,
}

impl Late {
    /// All cost the same.
    pub(crate) fn new(cost: i64) -> Late {
        Late {
            costs: [cost; BACK],
            at: 0,
            idle: 0,
        }
    }

    /// Whether a change is kept that leads from one cost to another.
    pub(crate) fn accepts(&self, from: i64, to: i64) -> bool {
        to <= from || to <= self.costs.get(self.at).copied().unwrap_or(0)
    }

    /// Notes the cost that stands behind a change.
    pub(crate) fn note(&mut self, cost: i64) {
        self.idle = self.idle.saturating_add(1);
        if let Some(old) = self.costs.get_mut(self.at) {
            if cost < *old {
                *old = cost;
                self.idle = 0;
            }
        }
        self.at = (self.at.saturating_add(1)) % BACK;
    }

    /// Whether nothing more is to be hoped for.
    pub(crate) fn is_idle(&self) -> bool {
        self.idle >= MOST_IDLE
    }
}
