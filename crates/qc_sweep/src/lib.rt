//! A first plan for the search: narrow sweeps over the pairs of a hatch and a crane, splits of whole
//! hatches, and a local search from the best of these.
//!
//! A schedule that `first_plan` gives was judged: it goes one way, that which it is given with, and ends
//! at a tick of at most 12 digits. How it is found, and how good it is, is promised by nothing.
#![tactic(auto)]

mod chosen;
mod dice;
mod first;
mod going;
mod grain;
mod hunt;
mod late;
mod layer;
mod lists;
mod local;
mod node;
mod schedule;
mod shares;
mod split;
mod sweep;
mod swept;
mod trail;
mod tries;
mod walk;

pub use first::{first_plan, run_sweeps};
pub use going::Going;
pub use swept::Swept;
