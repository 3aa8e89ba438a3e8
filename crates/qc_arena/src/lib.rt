//! Arcs between numbered nodes, pushed and popped like a stack, in one block of raw memory that
//! five small functions reach; and cells that are written and set back.
//!
//! `push` and `pop` keep a list of arcs; `out` and `into_of` walk those from a node and into one,
//! newest first. Before a write of a cell the old value is noted, and `Trail::back` gives the cells
//! as noted past a mark. That this is what they held at the mark hangs on what was noted, which
//! `qc_starts` proves for its own.
#![tactic(auto)]

mod arcs;
mod block;
mod cells;
mod edge;
mod trail;
mod walks;

pub use arcs::ArcArena;
pub use cells::Cells;
pub use edge::Edge;
pub use trail::{Note, Trail};
pub use walks::Walk;
