//! Which nodes of the search need no branching, and the leaf that shows it: a chain, a ring, tasks
//! of which no two can run together, or the end before which the work doesn't fit.
//!
//! `close` gives a leaf exactly where a node can be closed at an end, but that it may also find
//! packed tasks that show it; `spent` the leaf of one that may not be branched on, which shows no
//! less than its end and its work.
#![tactic(auto)]

mod falling;
mod leaves;
mod lists;
mod packed;
mod spread;
mod tries;
mod work;

pub use leaves::{LeafKind, close, spent};
pub use work::work_bound;
