//! A text that grows.

ghost use Rattle.std.specs.Prelude.{◌≡◌, ◌++◌, [], OnOk, ℕ, List};

use qc_num::{Bytes, OutOfMemory};
use std::alloc::Global;
use std::marker::Model;

/// A text that is put together piece by piece.
#[derive(Drop)]
pub(crate) struct Page {
    bytes: Vec<u8>,
}

impl Model for Page {
    ghost Value = { List ℕ };

    ghost view = { λ page. page.bytes.items };
}

impl Page {
    /// The empty text.
    pub(crate) fn new(alloc: Global) -> Page
        ensures { result ≡ [] }
    {
        Page {
            bytes: Vec::new(alloc),
        }
    }

    /// Puts a piece behind the text.
    pub(crate) fn put(&mut self, piece: &[u8]) -> Result<(), OutOfMemory>
        ensures { OnOk result (self.new ≡ self.old ++ piece.now) }
    {
        self.bytes.extend_from_slice(piece)?;
        Ok(())
    }

    /// The bytes of the text.
    pub(crate) fn bytes(self) -> Bytes
        ensures { result ≡ self }
    {
        Bytes::of(self.bytes)
    }
}
