//! What a log of reported places comes to.

use qc_num::{Text, Tick};

/// What is told of two cranes that were too near.
#[derive(Drop)]
pub struct BreachReport {
    /// The time of the first report at which two were.
    pub at: Tick,
    /// The name of the lower crane.
    pub first: Text<12>,
    /// The name of the higher one.
    pub second: Text<12>,
}

/// What a log comes to.
#[derive(Drop)]
pub enum Watching {
    /// Every two cranes kept their margin; the number of reports is to be printed.
    Safe(u32),
    /// Two cranes were too near.
    Breach(BreachReport),
}
