//! A run of the program: the words ask for a command, which serves and reports.
//!
//! `run` says that the words ask for something and that its command served it, or that memory was
//! wanting for the words; what each command promises, and which files stay.
#![tactic(auto)]

mod program;

pub use program::run;
pub use qc_run::{Ended, Status};
