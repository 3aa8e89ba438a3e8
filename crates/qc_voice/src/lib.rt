//! What is said on standard error after a run: what is to be mended in its words and files, what is worth a note, and
//! what the system said; for people.
#![tactic(auto)]

mod after;
mod bay_plans;
mod odds;
mod order;
mod texts;
mod voice;

pub use after::say_after;
pub use voice::explain;
