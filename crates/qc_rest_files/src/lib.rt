//! The files that say what is left of a plan: the ship file (`ship_text`) and the stowage list (`write_stow`) of the
//! instance that is made of it.
//!
//! Both follow from the ship, its moves and that instance alone: its tasks are those that are left, with their releases,
//! and its cranes stand where they begin. Read again, the files are that ship and those moves.
#![tactic(auto)]

mod cranes;
mod laws;
mod list;
mod names;
mod ship;
mod values;

pub use list::write_stow;
pub use ship::ship_text;
