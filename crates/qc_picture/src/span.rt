//! Places on the rail that are drawn.

use qc_num::Tick;

/// The least and the greatest place that is drawn, in halves of a bay times travel.
#[derive(Clone, Copy)]
pub(crate) struct Span {
    low: i128,
    high: i128,
}

/// How far one place lies behind another, and 0 where it doesn't.
fn up(from: i128, to: i128) -> u128 {
    if from < to { from.abs_diff(to) } else { 0 }
}

impl Span {
    /// What lies so far to both sides of a place.
    pub(crate) fn around(place: i128, side: i128) -> Span {
        Span {
            low: place.saturating_sub(side),
            high: place.saturating_add(side),
        }
    }

    /// The span with another one.
    pub(crate) fn with(self, other: Span) -> Span {
        Span {
            low: self.low.min(other.low),
            high: self.high.max(other.high),
        }
    }

    /// Where a place stands across the paper: from the left edge at 900 to the right one at 15,300.
    pub(crate) fn across(self, place: i128) -> u64 {
        let wide = up(self.low, self.high).max(1);
        let from = up(self.low, place).saturating_mul(14_400);
        900 + (from / wide).min(14_400) as u64
    }
}

/// Where a tick stands down the paper: from tick 0 at 1,500 to the end at 11,100.
pub(crate) fn down(end: Tick, at: Tick) -> u64 {
    1_500 + (9_600 * u128::from(at) / u128::from(end.max(1))).min(9_600) as u64
}
