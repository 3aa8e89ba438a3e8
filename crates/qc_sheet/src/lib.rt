//! Work sheets: in which order the containers of each task are lifted off or set down, and when.
//!
//! `Sheet::new` orders the moves of every task by one sorting. As a lemma, of a feasible schedule:
//! each move stands once, none is lifted from under another or set down before what it stands on,
//! in a hatch phase follows phase, an ordered restow is off before it is put back, each within its
//! task (`workable`).
#![tactic(auto)]

mod entry;
mod forties;
mod order;
mod report;
mod sheet;
mod ticks;

pub use report::write_sheet;
pub use sheet::Sheet;
