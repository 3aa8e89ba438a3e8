//! The decisions of a search, and what they ask of every schedule that agrees with them, from
//! tables that each decision keeps up.
//!
//! Which task is forced after which and by how many ticks, heads, and settled pairs, each as its
//! definition says (`Decisions::add`, `undo`, `forced`, `lead`, `settled`).
#![tactic(auto)]

mod children;
mod clash;
mod decisions;
mod forced;
mod grid;
mod heads;
mod travel;

pub use children::next_child;
pub use decisions::Decisions;
pub use qc_model::Decision;
pub use travel::{distance, head, in_reach, separation, span, upward_ticks};
