//! The replay of a bound tree: a file is read line by line, with the decisions of the node that
//! comes next and nothing else that grows, and what it shows is found without a search.
//!
//! `replay` gives the value of the tree that a file holds, below which no schedule of the
//! instance's turn ends, or the fault of its first faulty line. The text of a tree is never called
//! faulty, and shows that tree's value.
#![tactic(auto)]

mod crewed_node;
mod descent;
mod earliest;
mod fault;
mod leaf;
mod lines;
mod node;
mod tree_file;
mod walk;

pub use fault::{ReplayError, Replayed};
pub use qc_tree::{TreeFault, TreeKind};
pub use tree_file::replay;
