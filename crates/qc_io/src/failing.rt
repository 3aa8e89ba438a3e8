//! Calls that are set to fail.
ghost use Rattle.std.specs.Prelude.{◌≡◌, ◌↔◌, [], ◌∷◌, ◌++◌, IsTrue, OnOk, OnErr};
ghost use Rattle.qc_io.specs.Calls.{counted, NextFails, Counted};

use std::alloc::{AllocError, Global};
use std::marker::Model;

/// Counts the calls on a store, from 1, and knows which of them are set to fail.
#[derive(Drop)]
pub struct Calls {
    count: u64,
    failing: Vec<u64>,
}

impl Model for Calls {
    ghost Value = { Counted };

    ghost view = { λ calls. record { count = calls.count; failing = calls.failing.items } };
}

impl Calls {
    /// No call was made, and none is set to fail.
    pub fn new(alloc: Global) -> Calls
        ensures { result ≡ record { count = 0; failing = [] } }
    {
        Calls {
            count: 0,
            failing: Vec::new(alloc),
        }
    }

    /// How many calls were made.
    pub fn count(&self) -> u64
        ensures { result ≡ self.now.count }
    {
        self.count
    }

    /// Sets a call to fail, by its number.
    pub fn fail(&mut self, call: u64) -> Result<(), AllocError>
        ensures ok { OnOk result (self.new ≡ record self.old { failing = self.old.failing ++ call ∷ [] }) }
        ensures err { OnErr result (self.new ≡ self.old) }
    {
        self.failing.push(call)?;
        Ok(())
    }

    /// Counts a call, and answers whether it is set to fail.
    pub fn next_fails(&mut self) -> bool
        ensures counts { self.new ≡ counted self.old }
        ensures fails { IsTrue result ↔ NextFails self.old }
    {
        self.count = self.count.saturating_add(1);
        self.failing.contains(&self.count)
    }
}
