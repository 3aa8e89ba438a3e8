//! Quay cranes.

use crate::Name;
use qc_num::{Bay, Tick};

/// A quay crane. Cranes are numbered along the rail with rising bays, from 0.
#[derive(Clone, Drop)]
pub struct Crane {
    pub name: Name,
    /// The tick from which it may leave its start bay, 0 to 1,000,000.
    pub ready: Tick,
    /// The bay at which it stands until then.
    pub bay: Bay,
    /// The first bay at which it may work.
    pub from: Bay,
    /// The last bay at which it may work.
    pub to: Bay,
}
