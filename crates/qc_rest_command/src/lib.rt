//! The command `rest`: what is left of a plan in the middle of its work.
//!
//! It follows a plan by the log of its work, and writes what has no start yet as a ship file, a stowage list and a plan
//! by which the old order goes on, all counted from the log's last tick. With every status the three files are new from
//! the first on, each whole, or as they were (`write_rest`). Read again they are what is left and the old order, and
//! whoever plans what is left plans the whole.
#![tactic(auto)]

mod answer;
mod command;
mod laws;
mod reading;
mod report;
mod storing;
mod telling;

pub use answer::{Renewed, Renewing, Worked};
pub use command::write_rest;
