//! A shelf that tells at a terminal what the first plan comes to, and how far the search has come whose
//! tree is written to it: branchings, best end, bound; and how many runs of a plan are done.
//!
//! It has the meaning of the shelf that it wraps (`Progress`). What it tells is promised by
//! nothing.
#![tactic(auto)]

mod progress;
mod runs;
mod sight;

pub use progress::Progress;
