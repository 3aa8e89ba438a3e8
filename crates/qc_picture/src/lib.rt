//! The drawing of a plan: a time-space diagram with the hatches across and time down, each crane as
//! a line in a band of half the gap to each side, each task as a box, and a mark where a release time makes a
//! crane wait.
//!
//! `write_picture` takes the plan of a feasible schedule and ends. How it looks is shown by rows
//! and by `trials/picture.py`.
#![tactic(auto)]

mod boxes;
mod cranes;
mod elements;
mod hatches;
mod paper;
mod picture;
mod releases;
mod span;
mod table;
mod ticks;

pub use paper::Drawn;
pub use picture::write_picture;
