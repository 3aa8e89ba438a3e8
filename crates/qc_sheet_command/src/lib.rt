//! The command that prints the work sheet of a plan: exactly where the plan is feasible, else the
//! first rule that it breaks; all files as they were (`print_sheet`).
#![tactic(auto)]

mod answer;
mod load;
mod report;
mod sheet;

pub use answer::{Listed, Listing};
pub use load::{Cargo, Load, read_cargo, read_load};
pub use sheet::print_sheet;
