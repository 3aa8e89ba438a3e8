//! The commands that read a log.
//!
//! `dispatch` follows the order of a plan by a log of what happens: the plan is judged, and the log
//! read where it is feasible. `watch` judges a log of reported crane places: the ship file and the
//! log are read, and it is told whether any two cranes came nearer than their margin. Both leave all
//! files as they were.
#![tactic(auto)]

mod dispatch_report;
mod dispatched;
mod dispatching;
mod waits;
mod watch_report;
mod watched;
mod watching;

pub use dispatched::dispatch;
pub use dispatching::{Dispatched, Dispatching};
pub use watched::watch;
pub use watching::{BreachReport, Watching};
