//! A sink whose lines go out whole.
ghost use Rattle.std.specs.Prelude.{◌≡◌, ◌↔◌, ◌<◌, ◌≤◌, ◌+◌, [], IsTrue, Ok, length, take, vec_len, vec_capacity, OnOk, IfOk};
ghost use Rattle.std.specs.Io.KnownBytes.{append_known};
ghost use Rattle.qc_io.specs.Writes.{Counts, Writes};
ghost use Rattle.qc_system.specs.Lines.{EndsLine};

use qc_io::{Failed, Sink, WriteFault, put_all};
use std::alloc::{AllocError, Global};

/// How many bytes are held at most.
const ROOM: usize = 65536;

/// A sink over another. What it takes goes out with the end of its line, or where no more can be held; of
/// what goes out then no piece is cut that can be held. It tells no bytes. What couldn't go out is let go.
#[derive(Drop)]
pub struct Lines<K> {
    to: K,
    held: Vec<u8>,
    ghost room: { 65536 ≤ vec_capacity held },
    ghost fits: { vec_len held ≤ 65536 },
}

impl<K: Sink + Drop> Lines<K> {
    /// Nothing is held.
    pub fn new(alloc: Global, to: K) -> Result<Self, AllocError>
        ensures { IfOk result (λ lines. lines.held.items ≡ []) }
    {
        let held = Vec::with_capacity(alloc, ROOM)?;
        Ok(Lines { to, held })
    }

    /// What the lines go to.
    pub fn to(&self) -> &K {
        &self.to
    }

    /// Writes out what is held.
    pub fn flush(&mut self) -> Result<(), WriteFault>
        ensures writes { Writes (K.view self.old.to) (K.view self.new.to) self.old.held.items result }
        ensures nothing_held { self.new.held.items ≡ [] }
    {
        let sent = put_all(&mut self.to, self.held.as_slice());
        self.held.clear();
        sent
    }

    /// Holds a piece. Where there is no room for it, what was held goes out first.
    fn hold(&mut self, piece: &[u8]) -> Result<(), WriteFault>
        requires { length piece.now ≤ 65536 }
        ensures takes { OnOk result (append_known (K.view self.new.to).written self.new.held.items
            ≡ append_known (append_known (K.view self.old.to).written self.old.held.items) piece.now) }
        ensures waits { vec_len self.old.held + length piece.now ≤ 65536
            → (result ≡ Ok tt) × (K.view self.new.to ≡ K.view self.old.to) }
        ensures counts { Counts (K.view self.old.to).faults (K.view self.new.to).faults result }
    {
        if piece.len() > ROOM - self.held.len() {
            self.flush()?;
        }
        match self.held.extend_from_slice(piece) {
            Ok(()) => Ok(()),
            Err(_) => unreachable!(),
        }
    }

    /// Takes the front of a piece, up to the end of its last line if one ends there, and answers how many
    /// bytes that were.
    fn take(&mut self, piece: &[u8]) -> Result<usize, WriteFault>
        ensures at_least { IfOk result (λ count. 0 < length piece.now → 0 < count) }
        ensures at_most { IfOk result (λ count. count ≤ length piece.now) }
        ensures takes { IfOk result (λ count. append_known (K.view self.new.to).written self.new.held.items
            ≡ append_known (append_known (K.view self.old.to).written self.old.held.items)
            (take count piece.now)) }
        ensures lines_go_out { IfOk result (λ count.
            EndsLine (take count piece.now) → self.new.held.items ≡ []) }
        // A piece without the end of a line waits, where all of it can be held.
        ensures waits { IfOk result (λ count. ¬ EndsLine (take count piece.now)
            → vec_len self.old.held + count ≤ 65536 → K.view self.new.to ≡ K.view self.old.to) }
        ensures counts { Counts (K.view self.old.to).faults (K.view self.new.to).faults result }
    {
        let end = line_end(piece).min(ROOM);
        let front = &piece[..end];
        self.hold(front)?;
        if ends_line(front) {
            self.flush()?;
        }
        Ok(end)
    }
}

/// How many bytes of the piece go to the end of its last line, or all where no line ends.
fn line_end(piece: &[u8]) -> usize
    ensures at_most { result ≤ length piece.now }
    ensures at_least { 0 < length piece.now → 0 < result }
{
    match piece.iter().rposition(|byte| *byte == b'\n') {
        Some(place) => place + 1,
        None => piece.len(),
    }
}

/// Whether the bytes end with a line feed.
fn ends_line(bytes: &[u8]) -> bool
    ensures { IsTrue result ↔ EndsLine bytes.now }
{
    bytes.last() == Some(&b'\n')
}

impl<K: Sink + Drop> Sink for Lines<K> {
    ghost use Rattle.std.specs.Prelude.{None};
    ghost use Rattle.qc_io.specs.Outside.{sink_view};

    ghost view = { λ sink. sink_view None (K.view sink.to).faults };

    fn write(&mut self, piece: &[u8]) -> Result<usize, Failed> {
        match self.take(piece) {
            Ok(count) => Ok(count),
            Err(WriteFault) => Err(Failed),
        }
    }
}
