//! How likely it is that a ship is done in time: its plan is tried over and over, and each time tasks take as much
//! longer or shorter as tasks of some past call did.
//!
//! `lengths` draws the lengths of a run. A `Course` goes through a plan with them: who leads whom stays as planned,
//! and no task waits longer than the rules ask. With any lengths that is a feasible schedule, and the starts are those
//! that a dispatcher grants where tasks take so long (`laws`). It marks the critical tasks of a run. A `Tally` keeps
//! the ends of the runs, and tells their mean, the first tick by which so many are over, and the chance that a run is
//! over by a tick.
#![tactic(auto)]

mod course;
mod critical;
mod draws;
mod laws;
mod odds;
mod order;
mod pass;
mod pool;
mod run;
mod run_lengths;
mod simulation;
mod sums;
mod tally;
mod watched;

pub use course::Course;
pub use draws::draw;
pub use odds::Odds;
pub use run_lengths::lengths;
pub use simulation::{MOST_RUNS, simulate};
pub use sums::{CraneSum, TaskSum};
pub use tally::Tally;
pub use watched::MOST_WATCHED;
