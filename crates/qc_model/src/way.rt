//! Ways of cranes.

use qc_num::{Bay, Tick};

/// How a crane has gone from its start bay.
#[derive(Clone, Copy)]
pub struct Trip {
    /// The bay to which it has come.
    pub at: Bay,
    /// The bays that it has gone.
    pub bays: Tick,
    /// The lowest bay at which it was.
    pub low: Bay,
    /// The highest bay at which it was.
    pub high: Bay,
}

/// What a crane goes at the least.
#[derive(Clone, Copy)]
pub struct Way {
    /// The bays that it goes.
    pub bays: Tick,
    /// The lowest bay to which it comes.
    pub low: Bay,
    /// The highest bay to which it comes.
    pub high: Bay,
}
