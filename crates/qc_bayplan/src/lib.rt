//! Bay plans: the containers of a ship and where they stand, as a BAPLIE message tells them.
//!
//! `read_bay_plan` gives the plan of a file, or the fault of its first faulty segment. The state of a
//! file between two segments is a `Course`; a segment takes it one step further, and may add a
//! container.
#![tactic(auto)]

mod container;
mod course;
mod fault;
mod place;
mod plan;
mod reader;
mod stage;
mod step;
mod taken;
mod text;

pub use fault::{BayPlanError, BayPlanFault, BayPlanKind};
pub use plan::{BayPlan, Container, MOST_CONTAINERS, Which};
pub use reader::read_bay_plan;
