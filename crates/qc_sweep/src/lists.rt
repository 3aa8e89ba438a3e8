//! The tasks of each crane, so that one of them is drawn at once.

use qc_model::MOST_CRANES;
use qc_num::OutOfMemory;
use std::alloc::Global;

/// The tasks of each crane, in any order.
#[derive(Drop)]
pub(crate) struct Lists {
    /// A row for each crane, as long as there are tasks.
    tasks: Vec<u16>,
    counts: [usize; MOST_CRANES as usize],
    /// Where each task stands in the row of its crane.
    places: Vec<usize>,
}

impl Lists {
    /// No crane has a task yet, of so many.
    pub(crate) fn empty(alloc: Global, count: u16) -> Result<Lists, OutOfMemory> {
        let cells = count as usize * MOST_CRANES as usize;
        Ok(Lists {
            tasks: vec![in alloc; 0; cells]?,
            counts: [0; MOST_CRANES as usize],
            places: vec![in alloc; 0; count as usize]?,
        })
    }

    /// How many tasks a crane has.
    pub(crate) fn count(&self, crane: u16) -> usize {
        self.counts.get(crane as usize).copied().unwrap_or(0)
    }

    /// Where the task of this number of a crane stands.
    fn cell(&self, crane: u16, number: usize) -> usize {
        let row = self.places.len().saturating_mul(crane as usize);
        row.saturating_add(number)
    }

    /// The task of this number of a crane; `None` where it has fewer.
    pub(crate) fn task(&self, crane: u16, number: usize) -> Option<u16> {
        if number >= self.count(crane) {
            return None;
        }
        self.tasks.get(self.cell(crane, number)).copied()
    }

    /// Writes a task where that of this number of a crane stands.
    fn set(&mut self, crane: u16, number: usize, task: u16) {
        let cell = self.cell(crane, number);
        if let Some(old) = self.tasks.get_mut(cell) {
            *old = task;
        }
        if let Some(place) = self.places.get_mut(task as usize) {
            *place = number;
        }
    }

    /// A crane has so many tasks.
    fn set_count(&mut self, crane: u16, count: usize) {
        if let Some(old) = self.counts.get_mut(crane as usize) {
            *old = count;
        }
    }

    /// Adds a task to those of a crane.
    pub(crate) fn add(&mut self, crane: u16, task: u16) {
        let count = self.count(crane);
        self.set(crane, count, task);
        self.set_count(crane, count.saturating_add(1));
    }

    /// Takes a task from a crane that has it: the last one comes to its place. From one that is none nothing is taken.
    pub(crate) fn take(&mut self, crane: u16, task: u16) {
        let last = self.count(crane).wrapping_sub(1);
        let Some(moved) = self.task(crane, last) else {
            return;
        };
        let place = self.places.get(task as usize).copied().unwrap_or(last);
        self.set(crane, place, moved);
        self.set_count(crane, last);
    }
}
