//! What is said of bay plans: of their faults, and of what is worth a note once a list of moves is made.
#![tactic(auto)]

mod both;
mod container;
mod decks;
mod fault;
mod notes;
mod segment;

pub use fault::say_bay_plan;
pub use notes::say_moves;
