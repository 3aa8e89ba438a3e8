//! Files that are read line by line, the lines of a text in memory and their words, and the records
//! of comma-separated values.
//!
//! `LineReader` gives the next line, of any greatest length, or says that it is too long, cut, or
//! that nothing is left; a ReadFault comes exactly where a call that reads failed. Of a log, a text
//! of which each line is ended by a line feed, `next_line` cuts one off, `line_text` tells what it
//! holds, `next_word` what stands ahead of its first space and behind it. `first_records` gives the
//! records of a file as `csv` reads them, in order, and no more of them than are asked for.
#![tactic(auto)]

mod line;
mod reader;
mod records;
mod word;

pub use line::{line_text, next_line};
pub use reader::{LineFault, LineOpen, LineReader};
pub use records::{field, first_records};
pub use word::next_word;
