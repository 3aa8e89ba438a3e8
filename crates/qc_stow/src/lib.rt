//! Stowage lists: the moves of containers off and on a ship.
//!
//! `read_stow` gives the moves of a list, or the fault of its first faulty record.
#![tactic(auto)]

mod columns;
mod fault;
mod fields;
mod id;
mod moves;
mod reader;
mod row;
mod taken;

pub use columns::Columns;
pub use fault::{StowError, StowFault, StowKind};
pub use id::Id;
pub use moves::{MOST_MOVES, Moves};
pub use reader::read_stow;
pub use row::{Move, Row};
pub use taken::Taken;
