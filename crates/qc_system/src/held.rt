//! Bytes that are held back so that they go out together.
ghost use Rattle.std.specs.Prelude.{◌≡◌, ◌<◌, ◌≤◌, [], length, take, vec_capacity, vec_len, OnOk, IfOk};
ghost use Rattle.std.specs.Io.KnownBytes.{Appends, append_known};
ghost use Rattle.qc_io.specs.Writes.{Counts};

use crate::once::write_once;
use qc_io::Failed;
use std::alloc::{AllocError, Global};
use std::io::{self, ErrorKind, Write};

/// How many bytes are held at most.
const ROOM: usize = 65536;

/// Bytes that are held back.
#[derive(Drop)]
pub(crate) struct Held {
    bytes: Vec<u8>,
    ghost room: { 65536 ≤ vec_capacity bytes },
    ghost fits: { vec_len bytes ≤ 65536 },
}

/// Writes the bytes, by as many calls as it takes.
fn send<W: Write>(
    to: &mut W,
    faults: &mut u64,
    why: &mut Option<io::Error>,
    bytes: &[u8],
) -> Result<(), Failed>
    ensures whole { OnOk result (Appends (W.contents to.old) (W.contents to.new) bytes.now) }
    ensures counts { Counts faults.old faults.new result }
{
    let mut done = 0;
    while done < bytes.len() {
        done += write_once(to, faults, why, &bytes[done..])?;
    }
    Ok(())
}

impl Held {
    /// None are held.
    pub(crate) fn new(alloc: Global) -> Result<Held, AllocError>
        ensures { IfOk result (λ held. held.bytes.items ≡ []) }
    {
        let bytes = Vec::with_capacity(alloc, ROOM)?;
        Ok(Held { bytes })
    }

    /// Writes what is held. Nothing is held then, also after a fault.
    pub(crate) fn flush<W: Write>(
        &mut self,
        to: &mut W,
        faults: &mut u64,
        why: &mut Option<io::Error>,
    ) -> Result<(), Failed>
        ensures whole { OnOk result (Appends (W.contents to.old) (W.contents to.new) self.old.bytes.items) }
        ensures none_held { self.new.bytes.items ≡ [] }
        ensures counts { Counts faults.old faults.new result }
    {
        let sent = send(to, faults, why, self.bytes.as_slice());
        self.bytes.clear();
        sent
    }

    /// Writes what is held, at the end.
    pub(crate) fn end<W: Write>(&mut self, to: &mut W) -> io::Result<()>
        ensures { OnOk result (Appends (W.contents to.old) (W.contents to.new) self.old.bytes.items) }
    {
        let (mut faults, mut why) = (0, None);
        match self.flush(to, &mut faults, &mut why) {
            Ok(()) => Ok(()),
            Err(Failed) => Err(why.unwrap_or(io::Error::from(ErrorKind::WriteZero))),
        }
    }

    /// Takes the front of a piece, as much as can be held, and answers how many bytes that were. What is held goes
    /// out first where there is no room beside it.
    pub(crate) fn take<W: Write>(
        &mut self,
        to: &mut W,
        faults: &mut u64,
        why: &mut Option<io::Error>,
        piece: &[u8],
    ) -> Result<usize, Failed>
        ensures at_least { IfOk result (λ count. 0 < length piece.now → 0 < count) }
        ensures at_most { IfOk result (λ count. count ≤ length piece.now) }
        ensures takes { IfOk result (λ count. Appends
            (append_known (W.contents to.old) self.old.bytes.items)
            (append_known (W.contents to.new) self.new.bytes.items)
            (take count piece.now)) }
        ensures counts { Counts faults.old faults.new result }
    {
        let front = &piece[..piece.len().min(ROOM)];
        if front.len() > ROOM - self.bytes.len() {
            self.flush(to, faults, why)?;
        }
        match self.bytes.extend_from_slice(front) {
            Ok(()) => Ok(front.len()),
            Err(_) => unreachable!(),
        }
    }
}
