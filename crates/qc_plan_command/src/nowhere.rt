//! A sink that keeps nothing.
ghost use Rattle.std.specs.Prelude.{None};
ghost use Rattle.qc_io.specs.Outside.{sink_view};

use qc_io::{Failed, Sink};

/// A sink that takes every piece and keeps nothing.
#[derive(Drop)]
pub(crate) struct Nowhere;

impl Sink for Nowhere {
    ghost view = { λ sink. sink_view None 0 };

    fn write(&mut self, piece: &[u8]) -> Result<usize, Failed> {
        Ok(piece.len())
    }
}
