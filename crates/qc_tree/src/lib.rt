//! Bound trees: a tree is the list of its nodes in the order of the file; the lines of their text,
//! and how a line can be at fault.
//!
//! Each line has one text, and a text is read as a line exactly where it is one (`write_line`,
//! `read_line`). As a lemma no schedule that cranes may follow ends before the value of a tree
//! (`tree_bound`).
#![tactic(auto)]

mod fault;
mod fields;
mod line;
mod reading;
mod writing;

pub use fault::{TreeFault, TreeKind};
pub use line::{BadLine, Line, LineReader, MOST_BRANCHINGS};
pub use qc_lines::{LineFault, LineOpen};
pub use reading::read_line;
pub use writing::write_line;
