//! How the states of each layer were come to.

use crate::node::{Node, Step};
use qc_num::OutOfMemory;
use std::alloc::Global;

/// For each state of each layer behind the first, how it was come to.
#[derive(Drop)]
pub(crate) struct Trail {
    steps: Vec<Step>,
    /// Where each layer begins, from that behind the first event on.
    firsts: Vec<usize>,
}

impl Trail {
    /// No layer.
    pub(crate) fn new(alloc: Global) -> Trail {
        Trail {
            steps: Vec::new(alloc),
            firsts: Vec::new(alloc),
        }
    }

    /// Adds the layer behind the next event.
    pub(crate) fn add(&mut self, layer: &[Node]) -> Result<(), OutOfMemory> {
        self.firsts.push(self.steps.len())?;
        for node in layer {
            self.steps.push(node.step)?;
        }
        Ok(())
    }

    /// How a state was come to: by the number of the event before its layer, and its own number there.
    pub(crate) fn step(&self, event: usize, number: u32) -> Option<Step> {
        let first = *self.firsts.get(event)?;
        self.steps
            .get(first.saturating_add(number as usize))
            .copied()
    }
}
