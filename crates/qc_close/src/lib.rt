//! Assignments of tasks to cranes, and how early a schedule that follows one can end, whatever is
//! decided of the order of tasks.
//!
//! The ticks that packed tasks need (`Crew::pack`), and whether an assignment is closed at an end
//! and the last such end (`Crew::closed`, `latest_closed`), exactly as defined. That no schedule
//! that follows it ends before are the laws of `qc_laws`.
#![tactic(auto)]

mod barred;
mod bars;
mod closed;
mod count;
mod crew;
mod frames;
mod grain;
mod left;
mod limit;
mod packs;
mod short;
mod spots;
mod sums;
mod trip;
mod walk;
mod way;

pub use closed::LAST_CLOSED;
pub use crew::Crew;
