//! One call of a writer or a reader of the system.
ghost use Rattle.std.specs.Prelude.{◌≡◌, length};
ghost use Rattle.qc_io.specs.Writes.{Counts};
ghost use Rattle.qc_system.specs.Once.{ReadsOnce, WritesOnce};

use qc_io::{Failed, fault};
use std::io::{self, Read, Write};

/// Writes once. An empty piece makes no call. An error is a fault, and so is a write that takes nothing. What the
/// system said is left in `why`.
pub(crate) fn write_once<W: Write>(
    to: &mut W,
    faults: &mut u64,
    why: &mut Option<io::Error>,
    piece: &[u8],
) -> Result<usize, Failed>
    ensures counts { Counts faults.old faults.new result }
    ensures writes { WritesOnce (W.contents to.old) (W.contents to.new) piece.now result }
    ensures empty { length piece.now ≡ 0 → to.new ≡ to.old }
{
    if piece.is_empty() {
        return Ok(0);
    }
    let written = to.write(piece);
    *why = written.err();
    match written {
        Ok(count) if count > 0 => Ok(count),
        _ => Err(fault(faults)),
    }
}

/// Reads once. An error is a fault. What the system said is left in `why`.
pub(crate) fn read_once<R: Read>(
    from: &mut R,
    faults: &mut u64,
    why: &mut Option<io::Error>,
    buf: &mut [u8],
) -> Result<usize, Failed>
    ensures counts { Counts faults.old faults.new result }
    ensures reads { ReadsOnce (R.remaining from.old) (R.remaining from.new) buf.new result }
{
    match from.read(buf) {
        Ok(count) => Ok(count),
        Err(error) => {
            *why = Some(error);
            Err(fault(faults))
        }
    }
}
