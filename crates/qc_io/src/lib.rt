//! What a program reads from and writes to: shelves of named files and sinks of bytes, each seen by
//! contracts as one record (`View`), with stores in memory.
//!
//! A file is read whole, or is missing, too large, or a counted fault (`read_all`). A text is
//! appended whole, or a front part of it and a counted fault (`put_all`). A file that is made
//! changes nothing until it is finished; then the name holds exactly what was written (`create`,
//! `finish`).
#![tactic(auto)]

mod failing;
mod mem_shelf;
mod mem_sink;
mod outlook;
mod reading;
mod rest;
mod shelf;
mod sink;
mod writing;

pub use mem_shelf::MemShelf;
pub use mem_sink::MemSink;
pub use outlook::Outlook;
pub use reading::{ReadAll, read_all};
pub use shelf::Shelf;
pub use sink::{Failed, Sink, fault};
pub use writing::{WriteFault, put_all};
