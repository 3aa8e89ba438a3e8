//! What is left of a file.
ghost use Rattle.std.specs.Prelude.{◌≡◌, min, take, drop, length, ℕ, ◌≤◌, List};

use std::marker::Model;

/// What is left of a file that is being read.
#[derive(Drop)]
pub struct Rest {
    bytes: Vec<u8>,
    taken: usize,
}

impl Model for Rest {
    ghost Value = { List ℕ };

    ghost view = { λ rest. drop rest.taken rest.bytes.items };

    ghost invariant = { λ rest. rest.taken ≤ length rest.bytes.items };
}

impl Rest {
    /// The whole file is left.
    pub fn of(bytes: Vec<u8>) -> Rest
        ensures { result ≡ bytes.items }
    {
        Rest { bytes, taken: 0 }
    }

    /// Moves as many bytes as fit into the front of `buf`, and answers how many.
    pub fn take_into(&mut self, buf: &mut [u8]) -> usize
        ensures count { result ≡ min (length self.old) (length buf.old) }
        ensures given { take result buf.new ≡ take result self.old }
        ensures left { self.new ≡ drop result self.old }
    {
        let left = &self.bytes[self.taken..];
        let count = left.len().min(buf.len());
        buf[..count].copy_from_slice(&left[..count]);
        self.taken += count;
        count
    }
}
