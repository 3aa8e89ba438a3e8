//! Past tasks: how long tasks of earlier calls should have taken, and how long they really took.
//!
//! `read_past` gives the tasks of a file, or the fault of its first faulty record. A `Past` keeps its limits, and
//! tells its calls, each with its tasks.
#![tactic(auto)]

mod call;
mod fault;
mod fields;
mod past;
mod reader;
mod task;

pub use call::CallName;
pub use fault::{PastError, PastFault, PastKind};
pub use past::{MOST_PAST, Past};
pub use reader::read_past;
pub use task::PastTask;
