//! Faults of plans, logs, trees and tables of past tasks, told for people; why what is left of a plan can't be planned; and
//! what is worth a note beside an answer.
#![tactic(auto)]

mod answer;
mod broken;
mod calls;
mod course;
mod cranes;
mod doing;
mod log;
mod no_rest;
mod past;
mod plan;
mod tree;
mod waits;

pub use answer::{say_infeasible, say_spent};
pub use broken::say_broken;
pub use calls::say_calls;
pub use course::say_course;
pub use log::say_log;
pub use no_rest::say_no_rest;
pub use past::say_past;
pub use plan::say_plan;
pub use tree::say_tree;
pub use waits::say_waits;
