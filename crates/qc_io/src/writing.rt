//! Writing a whole piece.
ghost use Rattle.std.specs.Prelude.{◌≡◌, length, IsOk};
ghost use Rattle.qc_io.specs.Writes.{Writes};

use crate::sink::{Failed, Sink};

/// A call on the sink failed, so a piece wasn't written whole.
#[derive(Clone, Copy, Debug, PartialEq, Eq)]
pub struct WriteFault;

impl From<Failed> for WriteFault {
    fn from(_failed: Failed) -> WriteFault {
        WriteFault
    }
}

/// Writes the whole piece. An empty piece makes no call. After `WriteFault` a part of the piece was
/// written, from its front, that isn't the whole piece.
pub fn put_all<K: Sink>(sink: &mut K, piece: &[u8]) -> Result<(), WriteFault>
    ensures writes { Writes (K.view sink.old) (K.view sink.new) piece.now result }
    ensures empty_ok { length piece.now ≡ 0 → IsOk result }
    ensures empty_stays { length piece.now ≡ 0 → sink.new ≡ sink.old }
{
    let mut done = 0;
    while done < piece.len() {
        done += sink.write(&piece[done..])?;
    }
    Ok(())
}
