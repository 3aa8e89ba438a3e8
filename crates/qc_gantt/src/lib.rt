//! Plan files (a schedule as a table of tasks, cranes, starts and ends), crane lines, and the Gantt
//! text.
//!
//! What `write_plan` writes is read as that schedule where its ends have at most 12 digits.
//! `read_plan` gives the schedule of a file of any origin, which can be judged, or the fault of its
//! first faulty record.
#![tactic(auto)]

mod entry;
mod fault;
mod gantt;
mod names;
mod reader;
mod slots;
mod tracks;
mod writer;

pub use fault::{PlanError, PlanFault, PlanKind};
pub use gantt::write_gantt;
pub use reader::read_plan;
pub use tracks::write_tracks;
pub use writer::write_plan;
