//! Where the cranes of a one-way schedule stand.
//!
//! `waypoints` gives the ticks at which a crane starts, stops or turns; between them it moves
//! evenly, at every fraction of a tick. `put_crane` writes the line of a crane, whatever its points
//! are.
#![tactic(auto)]

mod floor;
mod lines;
mod runs;
mod sweep;
mod trace;
mod track;

pub use floor::floor_of;
pub use lines::{Point, put_crane};
pub use trace::waypoints;
pub use track::{Track, Waypoint};
