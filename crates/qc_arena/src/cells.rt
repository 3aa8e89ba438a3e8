//! Numbers in a fixed number of cells.

ghost use Rattle.std.specs.Prelude.{◌≡◌, ◌<◌, ◌≤◌, length, IfOk, replicate, slice_index, slice_set, take, ℕ, List};

use qc_num::OutOfMemory;
use std::alloc::Global;
use std::marker::Model;

/// A fixed number of cells that hold a number each. All memory is taken by `new`.
#[derive(Drop)]
pub struct Cells {
    values: Vec<u64>,
}

impl Model for Cells {
    ghost Value = { List ℕ };

    ghost view = { λ cells. cells.values.items };
}

impl Cells {
    /// That many cells, each 0.
    pub fn new(alloc: Global, count: u32) -> Result<Cells, OutOfMemory>
        ensures { IfOk result (λ cells. cells ≡ replicate count 0) }
    {
        let values = vec![in alloc; 0u64; count as usize].map_err(OutOfMemory::from)?;
        Ok(Cells { values })
    }

    /// What the cell holds. Cells are numbered from 0.
    pub fn get(&self, place: u32) -> u64
        requires { place < length self.now }
        ensures { result ≡ slice_index self.now place }
    {
        self.values[place as usize]
    }

    /// Copies what the first cells hold, as many as there is room for.
    pub fn copy_front(&self, to: &mut [u64])
        requires { length to.old ≤ length self.now }
        ensures { to.new ≡ take (length to.old) self.now }
    {
        to.copy_from_slice(&self.values[..to.len()]);
    }

    /// Writes the cell.
    pub fn set(&mut self, place: u32, value: u64)
        requires { place < length self.old }
        ensures { self.new ≡ slice_set self.old place value }
    {
        self.values[place as usize] = value;
    }
}
