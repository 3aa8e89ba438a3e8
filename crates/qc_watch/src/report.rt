//! Reports of places.

use qc_num::{Bay, Tick};

/// Where a crane was at a time, as it was reported.
#[derive(Clone, Copy, PartialEq, Eq)]
pub struct Report {
    /// At most twelve digits.
    pub at: Tick,
    /// From -999,999 to 999,999.
    pub place: Bay,
}
