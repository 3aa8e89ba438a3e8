//! Logs of reported crane places.
//!
//! `read_reports` gives the reports of each crane, or the fault of the first faulty line.
//! `first_breach` says that every two cranes kept their gap at every moment at which both are
//! known, fractions of a tick included, or gives the first report at which two didn't; without
//! memory.
#![tactic(auto)]

mod breach;
mod cursors;
mod entry;
mod fault;
mod pairs;
mod place;
mod reader;
mod report;
mod reports;

pub use breach::{Breach, first_breach};
pub use fault::{WatchError, WatchFault, WatchKind};
pub use reader::read_reports;
pub use report::Report;
pub use reports::Reports;
