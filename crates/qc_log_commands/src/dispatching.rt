//! What a plan comes to whose order is followed by a log.

use qc_dispatch::Followed;
use qc_run::{Broken, Job};

/// A feasible plan, and what happened by the log.
#[derive(Drop)]
pub struct Dispatched {
    pub job: Job,
    pub followed: Followed,
}

/// What a plan comes to whose order is followed by a log.
#[derive(Drop)]
pub enum Dispatching {
    /// The plan breaks a rule other than that of one way.
    Broken(Broken),
    /// The plan is feasible and the log was followed; what happened is to be printed.
    Dispatched(Dispatched),
}
