//! The tasks of a ship: its instance from the moves of a stowage list (`tasks_of`), with what is
//! before what and what is apart, and the report of it (`write_tasks`).
#![tactic(auto)]

mod apart;
mod before;
mod entries;
mod instance;
mod moves;
mod order;
mod report;
mod rings;
mod tasks;

pub use instance::{TasksError, tasks_of};
pub use moves::is_move_of;
pub use report::write_tasks;
