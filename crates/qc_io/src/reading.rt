//! Reading a whole file.
ghost use Rattle.std.specs.Prelude.{◌≡◌, ◌<◌, ◌≤◌, ◌+◌, ◌⊎◌, true, false, [], length, vec_len, IsOk, OnOk, IfOk, IfSome};
ghost use Rattle.std.specs.Io.KnownBytes.{prepend_known};
ghost use Rattle.qc_io.specs.Outside.{Rose, IsMissing, ReadCause, IsFile, TakesAtMost, file_at};
ghost use Rattle.qc_io.specs.Reads.{Reads};

use crate::shelf::Shelf;
use crate::sink::Failed;
use qc_num::Bytes;
use std::alloc::{AllocError, Global};

/// How many bytes are asked of a shelf at a time.
const BLOCK: usize = 65536;

/// Why a file wasn't read.
#[derive(Clone, Copy, Debug, PartialEq, Eq)]
pub enum ReadAll {
    /// The shelf doesn't hold the file, or a call on the shelf failed.
    ReadFault,
    /// The file has more bytes than allowed.
    TooLarge,
    OutOfMemory,
}

impl From<Failed> for ReadAll {
    ghost use Rattle.std.specs.Prelude.{◌≡◌};
    ghost use Rattle.qc_io.specs.declared.reading.ReadAll.TheVariants.{ReadFault};

    ghost from_gives = { λ _ error. error ≡ ReadFault };

    fn from(_failed: Failed) -> ReadAll {
        ReadAll::ReadFault
    }
}

impl From<AllocError> for ReadAll {
    ghost use Rattle.std.specs.Prelude.{◌≡◌};
    ghost use Rattle.qc_io.specs.declared.reading.ReadAll.TheVariants.{OutOfMemory};

    ghost from_gives = { λ _ error. error ≡ OutOfMemory };

    fn from(_refused: AllocError) -> ReadAll {
        ReadAll::OutOfMemory
    }
}

/// The whole file, read to its end. It takes at most one byte more than `limit` off the file.
///
/// `ReadFault` comes where the name is missing or a call on the shelf failed, and `TooLarge` where the
/// file has more than `limit` bytes and no call failed. Want of memory may stand in place of
/// `TooLarge` and of the file.
pub fn read_all<S: Shelf>(
    alloc: Global,
    shelf: &mut S,
    name: &str,
    limit: usize,
) -> Result<Bytes, ReadAll>
    ensures whole { IfOk result (λ bytes. IsFile (S.Sink.view shelf.old).files name.now bytes) }
    ensures within { IfOk result (λ bytes. length bytes ≤ limit) }
    ensures read_fault { result ≡ Err ReadAll.ReadFault
        → ReadCause (S.Sink.view shelf.old) (S.Sink.view shelf.new) name.now }
    ensures missing { IsMissing (S.Sink.view shelf.old).files name.now
        → result ≡ Err ReadAll.ReadFault }
    ensures too_large { result ≡ Err ReadAll.TooLarge
        → IfSome (file_at (S.Sink.view shelf.old).files name.now) (λ bytes. limit < length bytes) }

    // What the answer is where no call failed. Want of memory is a free answer.
    ensures larger { IfSome (file_at (S.Sink.view shelf.old).files name.now) (λ bytes.
        limit < length bytes
        → ¬ (Rose (S.Sink.view shelf.old).read_faults (S.Sink.view shelf.new).read_faults)
        → (result ≡ Err ReadAll.TooLarge) ⊎ (result ≡ Err ReadAll.OutOfMemory)) }
    ensures fitting { IfSome (file_at (S.Sink.view shelf.old).files name.now) (λ bytes.
        length bytes ≤ limit
        → ¬ (Rose (S.Sink.view shelf.old).read_faults (S.Sink.view shelf.new).read_faults)
        → IsOk result ⊎ (result ≡ Err ReadAll.OutOfMemory)) }

    ensures taken { (S.Sink.view shelf.new).reading ≡ true
        → TakesAtMost (limit + 1) (file_at (S.Sink.view shelf.old).files name.now)
        (S.Sink.view shelf.new).rest }
    ensures reads { Reads (S.Sink.view shelf.old) (S.Sink.view shelf.new)
        (¬ (result ≡ Err ReadAll.ReadFault)) }
{
    shelf.open(name)?;
    let mut bytes = Vec::new(alloc);
    let mut block = block_of(alloc, BLOCK)?;
    while read_block(shelf, limit, &mut bytes, block.as_mut_slice())? {}
    Ok(Bytes::of(bytes))
}

/// A block of so many bytes to read into.
fn block_of(alloc: Global, size: usize) -> Result<Vec<u8>, AllocError>
    ensures { IfOk result (λ block. vec_len block ≡ size) }
{
    vec![in alloc; 0u8; size]
}

/// Reads once and puts what came behind `bytes`. It answers whether anything came.
fn read_block<S: Shelf>(
    shelf: &mut S,
    limit: usize,
    bytes: &mut Vec<u8>,
    block: &mut [u8],
) -> Result<bool, ReadAll>
    requires open { (S.Sink.view shelf.old).reading ≡ true }
    requires within { vec_len bytes.old ≤ limit }
    requires room { 0 < length block.old }
    ensures ok { OnOk result (prepend_known bytes.new.items (S.Sink.view shelf.new).rest
        ≡ prepend_known bytes.old.items (S.Sink.view shelf.old).rest) }
    ensures more { IfOk result (λ more. more ≡ true → vec_len bytes.old < vec_len bytes.new) }
    ensures ended { IfOk result (λ more. more ≡ false
        → IfSome (S.Sink.view shelf.new).rest (λ rest. rest ≡ [])) }
    ensures still_within { OnOk result (vec_len bytes.new ≤ limit) }
    ensures read_fault { result ≡ Err ReadAll.ReadFault
        → Rose (S.Sink.view shelf.old).read_faults (S.Sink.view shelf.new).read_faults }
    ensures too_large { result ≡ Err ReadAll.TooLarge
        → IfSome (prepend_known bytes.old.items (S.Sink.view shelf.old).rest) (λ whole. limit < length whole) }
    ensures taken { TakesAtMost (limit + 1)
        (prepend_known bytes.old.items (S.Sink.view shelf.old).rest) (S.Sink.view shelf.new).rest }
    ensures reading_stays { (S.Sink.view shelf.new).reading ≡ true }
    ensures reads { Reads (S.Sink.view shelf.old) (S.Sink.view shelf.new)
        (¬ (result ≡ Err ReadAll.ReadFault)) }
{
    let left = limit - bytes.len();
    let room = block.len().min(left.saturating_add(1));
    let count = shelf.read(&mut block[..room])?;
    if count > left {
        return Err(ReadAll::TooLarge);
    }
    bytes.extend_from_slice(&block[..count])?;
    Ok(count > 0)
}
