//! The command that makes a ship and a list from numbers, plans and checks them in memory, and
//! prints a summary: of what was made, and of a search of its instance. It takes no shelf (`make`).
#![tactic(auto)]

mod made;
mod stored;
mod summary;
mod trial;

pub use made::{Made, Verdict};
pub use trial::make;
