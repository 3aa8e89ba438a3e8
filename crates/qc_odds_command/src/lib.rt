//! The command `odds`: how likely it is that a ship is done in time.
//!
//! It reads a plan and what tasks took in past calls, works the plan many times, each time with lengths that are drawn
//! from those, and prints when all is done, how often it is by the end of the plan, what the cranes do, and which tasks
//! to watch (`odds`).
#![tactic(auto)]

mod answer;
mod command;
mod ends_report;
mod report;
mod sums_report;

pub use answer::{Forecast, Forecasting};
pub use command::odds;
