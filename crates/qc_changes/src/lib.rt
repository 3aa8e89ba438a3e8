//! The list of moves that leads from one bay plan to another.
//!
//! `changes` finds what goes, what comes, and what stands over it and must be lifted and put back;
//! `write_list` writes the list as a stowage list.
#![tactic(auto)]

mod between;
mod class;
mod column;
mod counts;
mod floors;
mod laws;
mod lift;
mod list;
mod outcome;
mod plan;
mod rows;

pub use between::changes;
pub use class::Class;
pub use counts::Counts;
pub use list::{put_header, row_line, write_list};
pub use outcome::Changes;
