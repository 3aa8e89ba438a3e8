//! Where a crane stands in the middle of work.

use qc_num::{Bay, Tick};

/// Where a crane stands, and until when it must stay there at the least.
#[derive(Clone, Copy)]
pub struct Stand {
    pub bay: Bay,
    pub until: Tick,
}
