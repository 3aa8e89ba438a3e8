//! `plan` and `free`, one command with the turn as a datum: they search the instance of a ship file
//! and a list, and write the search's tree and the plan of the best schedule that it knows.
//!
//! With every status TREE and PLAN are whole or as they were. What the search promises is told and
//! printed, no answer is later than the planner's own plan, and PLAN is read again as the schedule
//! that is told (`plan`).
#![tactic(auto)]

mod ahead;
mod answer;
mod command;
mod found;
mod nowhere;
mod opened;
mod report;
mod room;
mod telling;
mod way;

pub use answer::{Motion, PlanAnswer, Planned};
pub use command::plan;
