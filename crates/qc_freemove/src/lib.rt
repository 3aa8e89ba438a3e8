//! Where the cranes of a feasible schedule stand, whichever way they go: points in half ticks,
//! since a crane may turn in the middle of a tick.
//!
//! As a law every feasible schedule moves safely (`feasible_schedules_are_safe`); `free_waypoints`
//! gives the points at which a crane starts, stops or turns, and no others.
#![tactic(auto)]

mod change;
mod hold;
mod laws;
mod lines;
mod sweep;
mod trace;
mod track;

pub use lines::write_free_tracks;
pub use trace::free_waypoints;
pub use track::{FreeTrack, HalfPoint};
