//! The command `moves`: the list of moves that leads from one bay plan to another.
//!
//! It reads both plans, makes the stowage list's file, and reports how many containers go, come,
//! change their cells, are lifted and stay (`list_moves`). As a law, the work sheet of a plan of that
//! list leads from the one to the other too (`sheets_lead_there`).
#![tactic(auto)]

mod answer;
mod command;
mod laws;
mod report;

pub use command::list_moves;
