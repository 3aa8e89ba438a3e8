//! The earliest start times of a search node. A decision pushes arcs and raises starts behind one
//! task, each cell noted; undoing it pops and writes back.
//!
//! The least starts and their end are exact, and no starts keep the node exactly where a decision
//! is answered by `Cycle`. `why_path` and `cycle` give the chain that shows the end, or the ring;
//! `complete` and `overlap` say what is left to decide. After `retract` the node is what it was.
#![tactic(auto)]

mod arcs;
mod complete;
mod latest;
mod network;
mod noted;
mod overlap;
mod place;
mod spread;
mod starts;
mod step;
mod tails;
mod walk;

pub use starts::Starts;
pub use step::Step;
