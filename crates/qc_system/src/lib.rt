//! The files of the system and standard output, as a shelf and as a sink, and the words of the
//! command line. They meet the traits' contracts and tell no content.
//!
//! A failure of a call is counted and moves nothing (`write_once`, `read_once`). No file is begun
//! that was opened or finished (`note`, `is_among`), but the one that was finished last, again under
//! its name (`again_as`). What is written to a new file waits, at most
//! 65,536 bytes of it (`Held`), and is in the file before that takes its place (`Making::finish`); a
//! line of standard output goes out with its end (`Lines`). The rest is the trusted edge.
#![tactic(auto)]

mod files;
mod held;
mod lines;
mod making;
mod once;
mod output;
mod part;
mod same;
mod target;
mod words;

pub use files::FileShelf;
pub use lines::Lines;
pub use output::Output;
pub use words::words_of;
