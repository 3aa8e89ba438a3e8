//! The commands that judge and print: `check` and `freecheck`, one command with the turn as a
//! datum, `show` and `tasks`.
//!
//! What a plan and a tree come to, in their order, with a bound that no schedule of the turn beats;
//! all files as they were (`check_plan`, `check_tree`, `show`, `list_tasks`).
#![tactic(auto)]

mod answer;
mod check;
mod compare;
mod judged;
mod motion;
mod reading;
mod shown;
mod tasks;

pub use answer::{Compared, Judged, Showing, Shown};
pub use check::check_tree;
pub use compare::check_plan;
pub use motion::show;
pub use tasks::list_tasks;
