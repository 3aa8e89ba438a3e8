//! The words of a command line, read by one command of `clap` for each name, and what is said to
//! whoever asks about the program.
//!
//! What is asked for is what `clap` reads (`request_of`); numbers and names keep their limits, and
//! words that no command begins are never answered by want of memory.
#![tactic(auto)]

mod about;
mod asked;
mod commands;
mod help;
mod words;

pub use asked::{MOST_NUMBER, MOST_RUNS, MOST_SEED, Reader, Request};
pub use commands::CommandName;
pub use help::{help_text, version_text};
pub use words::{USUAL_BRANCHINGS, USUAL_RUNS, request_of};
