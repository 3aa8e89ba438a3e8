//! What a plan comes to that is worked many times.

use qc_num::Tick;
use qc_odds::Odds;
use qc_run::{Broken, Job};

/// A feasible plan, and what many runs of it come to.
#[derive(Drop)]
pub struct Forecast {
    pub job: Job,
    pub odds: Odds,
    /// The tick of which it is asked how many runs are over by it, if any.
    pub by_tick: Option<Tick>,
}

/// What a plan comes to that is worked many times.
#[derive(Drop)]
pub enum Forecasting {
    /// The plan breaks a rule other than that of one way.
    Broken(Broken),
    /// The plan is feasible; what its runs come to is to be printed.
    Forecast(Forecast),
}
