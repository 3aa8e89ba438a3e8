//! The search for the best plan: branch and bound over the parts of a tree, two where cranes go one
//! way and one where they go as they like. Each line is written when its node is met; no tree is
//! held.
//!
//! `Search::run` writes a whole tree of at most N branchings, which branches only where a node
//! can't be closed. Its best schedule is the tight form of the one that it was offered, or one that a
//! node met, no later; no schedule ends before its bound. A sink that fails holds a front part of a tree.
//! Want of memory is answered by `Search::open` alone.
//!
//! It may aim at an end below what it begins with, at which nodes are then closed: its tree shows that in fewer
//! branchings.
//!
//! `Search::store_tree` runs a search in rounds: one at the end of what it begins with, some that aim below the
//! best end that is known, and one at that end, with all branchings of them together. The tree that shows most
//! stands in its file; `store_best` makes the file of the best schedule's plan, which is read again as that
//! schedule. Each file is whole or as it was. With the word for how a search came out, and how much effort a first plan gets.
#![tactic(auto)]

mod aims;
mod best;
mod branch;
mod choice;
mod done;
mod effort;
mod given;
mod lines;
mod node;
mod outcome;
mod part;
mod place;
mod progress;
mod roots;
mod round;
mod rounds;
mod search;
mod store;
mod tree;
mod word;

pub use done::{Done, Kind};
pub use effort::EFFORT;
pub use search::Search;
pub use store::store_best;
pub use word::kind_word;
