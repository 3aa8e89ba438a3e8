//! A writer of the system as a sink.
ghost use Rattle.qc_io.specs.Writes.{Counts};
ghost use Rattle.qc_system.specs.Once.{WritesOnce};
ghost use Rattle.std.specs.Prelude.{None};
ghost use Rattle.qc_io.specs.Outside.{sink_view};

use crate::once::write_once;
use qc_io::{Failed, Sink};
use std::io::{self, Write};

/// A writer of the system as a sink. It tells no bytes.
#[derive(Drop)]
pub struct Output<W> {
    to: W,
    faults: u64,
    /// What the system said last.
    why: Option<io::Error>,
}

impl<W: Write> Output<W> {
    /// No fault was counted.
    pub fn new(to: W) -> Self {
        Output {
            to,
            faults: 0,
            why: None,
        }
    }

    /// What the system said of a write that failed.
    pub fn why(&self) -> Option<io::Error> {
        self.why
    }
}

impl<W: Write> Sink for Output<W> {
    ghost view = { λ sink. sink_view None sink.faults };

    fn write(&mut self, piece: &[u8]) -> Result<usize, Failed>
        ensures counts { Counts self.old.faults self.new.faults result }
        ensures writes { WritesOnce (W.contents self.old.to) (W.contents self.new.to) piece.now result }
    {
        write_once(&mut self.to, &mut self.faults, &mut self.why, piece)
    }
}
