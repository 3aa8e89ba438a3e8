//! A sink in memory.
ghost use Rattle.std.specs.Prelude.{◌≡◌, ◌≤◌, [], ◌∷◌, ◌++◌, length, OnOk, OnErr, IfOk, IsErr, Some};
ghost use Rattle.qc_io.specs.Outside.{next_count, sink_view};
ghost use Rattle.qc_io.specs.Calls.{counted, NextFails};
ghost use Rattle.qc_io.specs.Memory.{Taken};

use crate::failing::Calls;
use crate::sink::{Failed, Sink, fault};
use qc_num::OutOfMemory;
use std::alloc::Global;
use std::marker::Model;

/// A sink in memory. A growth that is refused is a fault.
#[derive(Drop)]
pub struct MemSink {
    bytes: Vec<u8>,
    faults: u64,
    calls: Calls,
}

impl Model for MemSink {
    ghost Value = { Taken };

    ghost view = { λ sink. record { bytes = sink.bytes.items; faults = sink.faults; calls = sink.calls } };
}

impl MemSink {
    /// A sink that took no bytes.
    pub fn new(alloc: Global) -> Result<MemSink, OutOfMemory>
        ensures { IfOk result (λ sink. sink ≡ record {
          bytes = [];
          faults = 0;
          calls = record { count = 0; failing = [] };
        }) }
    {
        Ok(MemSink {
            bytes: Vec::new(alloc),
            faults: 0,
            calls: Calls::new(alloc),
        })
    }

    /// Sets a call of `write` to fail, by its number, counted from 1.
    pub fn fail(&mut self, call: u64) -> Result<(), OutOfMemory>
        ensures ok { OnOk result (self.new ≡ record self.old {
          calls = record self.old.calls { failing = self.old.calls.failing ++ call ∷ [] };
        }) }
        ensures err { OnErr result (self.new ≡ self.old) }
    {
        self.calls.fail(call)?;
        Ok(())
    }

    /// How many calls of `write` were made.
    pub fn calls(&self) -> u64
        ensures { result ≡ self.now.calls.count }
    {
        self.calls.count()
    }

    /// The bytes so far.
    pub fn bytes(&self) -> &[u8]
        ensures { result.now ≡ self.now.bytes }
    {
        self.bytes.as_slice()
    }
}

impl Sink for MemSink {
    ghost view = { λ sink. sink_view (Some sink.bytes) sink.faults };

    /// Takes the whole piece. It fails where the call is set to fail, or for want of memory.
    fn write(&mut self, piece: &[u8]) -> Result<usize, Failed>
        ensures count { IfOk result (λ count. count ≡ length piece.now) }
        ensures ok { OnOk result (self.new ≡ record self.old {
          bytes = self.old.bytes ++ piece.now;
          calls = counted self.old.calls;
        }) }
        ensures err { OnErr result (self.new ≡ record self.old {
          faults = next_count self.old.faults;
          calls = counted self.old.calls;
        }) }
        ensures set_to_fail { NextFails self.old.calls → IsErr result }
        ensures never_falls { self.old.faults ≤ self.new.faults }
    {
        if self.calls.next_fails() {
            return Err(fault(&mut self.faults));
        }
        match self.bytes.extend_from_slice(piece) {
            Ok(()) => Ok(piece.len()),
            Err(_) => Err(fault(&mut self.faults)),
        }
    }
}
