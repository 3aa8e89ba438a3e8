//! What cells held before they were written, so that they can be put back.

ghost use Rattle.std.specs.Prelude.{◌≡◌, ◌<◌, ◌≤◌, [], ◌∷◌, ◌++◌, All, length, take, drop, IfOk};
ghost use Rattle.qc_arena.specs.Trails.{written_back, Notes};
ghost use Rattle.qc_arena.specs.Room.{HasRoom};

use crate::Cells;
use qc_num::OutOfMemory;
use std::alloc::Global;
use std::marker::Model;

/// What a cell held before it was written.
#[derive(Clone, Copy, PartialEq, Eq)]
pub struct Note {
    /// The cell's number, from 0.
    pub place: u32,
    /// The value that it held.
    pub old: u64,
}

/// Notes in the order in which they were made, at most `cap`. All memory is taken by `new`.
#[derive(Drop)]
pub struct Trail {
    notes: Vec<Note>,
    cap: u32,
}

impl Model for Trail {
    ghost Value = { Notes };

    ghost view = { λ trail. record { notes = trail.notes.items; cap = trail.cap } };

    ghost invariant = { HasRoom };
}

impl Trail {
    /// No note, and room for `cap` of them.
    pub fn new(alloc: Global, cap: u32) -> Result<Trail, OutOfMemory>
        ensures { IfOk result (λ trail. trail ≡ record { notes = []; cap = cap }) }
    {
        let notes = Vec::with_capacity(alloc, cap as usize).map_err(OutOfMemory::from)?;
        Ok(Trail { notes, cap })
    }

    /// Notes what a cell holds before it is written.
    pub fn note(&mut self, place: u32, old: u64)
        requires { length self.old.notes < self.old.cap }
        ensures { self.new ≡ record self.old {
          notes = self.old.notes ++ record { place = place; old = old } ∷ [];
        } }
    {
        self.notes.push_reserved(Note { place, old });
    }

    /// How many notes there are.
    pub fn mark(&self) -> u32
        ensures { result ≡ length self.now.notes }
    {
        self.notes.len() as u32
    }

    /// Writes the notes past the mark back into the cells, from the newest to the oldest, and drops
    /// them.
    pub fn back(&mut self, mark: u32, cells: &mut Cells)
        requires mark { mark ≤ length self.old.notes }
        requires places { All (λ note. note.place < length cells.old) self.old.notes }
        ensures dropped { self.new ≡ record self.old { notes = take mark self.old.notes } }
        ensures cells { cells.new ≡ written_back (drop mark self.old.notes) cells.old }
        ensures count { length cells.new ≡ length cells.old }
    {
        while self.notes.len() > mark as usize {
            if let Some(note) = self.notes.pop() {
                cells.set(note.place, note.old);
            }
        }
    }
}
