//! Cells that are written with a note of what they held, once for each decision.

ghost use Rattle.std.specs.Prelude.{◌≡◌, ℕ, ◌+◌, ◌*◌, ◌<◌, ◌≤◌, ◌^◌, [], All, drop, take, IfOk, List, false, true, length, replicate, slice_index, slice_index_or, slice_set};
ghost use Rattle.qc_arena.specs.declared.trail.Note.{Note};
ghost use Rattle.qc_arena.specs.Trails.{written_back};
ghost use Rattle.qc_starts.specs.Noting.{HasNotes, IsNoting, Wrote};
ghost use Rattle.qc_starts.specs.Values.{code_of, raised, raiser_at, start_at};

use qc_arena::{Cells, Trail};
use qc_num::{OutOfMemory, Tick};
use std::alloc::Global;

/// The number that a cell holds for the task that raised another: 0 for none.
fn code_of(raiser: Option<u16>) -> u64
    ensures { result ≡ code_of raiser }
{
    match raiser {
        None => 0,
        Some(task) => task as u64 + 1,
    }
}

/// Clears all marks.
pub(crate) fn clear(marks: &mut [bool])
    ensures { (k : ℕ) → k < length marks.new → slice_index_or marks.new k true ≡ false }
{
    for mark in marks.iter_mut() {
        *mark = false;
    }
}

/// Cells of numbers, and notes of what they held before each decision.
#[derive(Drop)]
pub(crate) struct Noted {
    pub(crate) cells: Cells,
    pub(crate) trail: Trail,
    /// Whether the newest decision has noted the cell.
    pub(crate) noted: Vec<bool>,
}

impl Noted {
    /// So many cells, and room for one note a cell and decision.
    pub(crate) fn open(alloc: Global, count: u32, decisions: u32) -> Result<Noted, OutOfMemory>
        requires { count * decisions < 2 ^ 32 }
        ensures cells { IfOk result (λ values. values.cells ≡ replicate count 0) }
        ensures trail { IfOk result (λ values. values.trail ≡ record { notes = []; cap = count * decisions }) }
        ensures noted { IfOk result (λ values. length values.noted.items ≡ count) }
    {
        Ok(Noted {
            cells: Cells::new(alloc, count)?,
            trail: Trail::new(alloc, count * decisions)?,
            noted: vec![in alloc; false; count as usize]?,
        })
    }

    /// When a task starts.
    pub(crate) fn start(&self, task: u16) -> Tick
        requires { task < length self.now.cells }
        ensures { result ≡ start_at self.now.cells task }
    {
        self.cells.get(task as u32)
    }

    /// The task that raised another of so many.
    pub(crate) fn raiser(&self, count: u16, task: u16) -> Option<u16>
        requires place { count + task < length self.now.cells }
        requires small { slice_index self.now.cells (count + task) ≤ 2 ^ 16 }
        ensures { result ≡ raiser_at count self.now.cells task }
    {
        let code = self.cells.get(count as u32 + task as u32);
        if code == 0 {
            None
        } else {
            Some((code - 1) as u16)
        }
    }

    /// Notes what a cell holds if the newest decision hasn't yet.
    fn note_once(&mut self, place: u32)
        requires place { place < length self.old.cells }
        requires notes { HasNotes self.old }
        ensures cells { self.new.cells ≡ self.old.cells }
        ensures notes { HasNotes self.new }
        ensures marked { slice_index_or self.new.noted.items place true ≡ true }
        ensures cap { self.new.trail.cap ≡ self.old.trail.cap }
        ensures noting { (before : List Note) (olds : List ℕ)
            → IsNoting before olds self.old → IsNoting before olds self.new }
    {
        if self.noted[place as usize] {
            return;
        }
        self.trail.note(place, self.cells.get(place));
        self.noted[place as usize] = true;
    }

    /// Writes a cell, and notes what it held if the newest decision hasn't yet.
    fn write(&mut self, place: u32, value: u64)
        requires place { place < length self.old.cells }
        requires notes { HasNotes self.old }
        ensures cells { self.new.cells ≡ slice_set self.old.cells place value }
        ensures notes { HasNotes self.new }
        ensures cap { self.new.trail.cap ≡ self.old.trail.cap }
        ensures noting { (before : List Note) (olds : List ℕ)
            → IsNoting before olds self.old → IsNoting before olds self.new }
    {
        self.note_once(place);
        self.cells.set(place, value);
    }

    /// Writes when a task of so many starts, and the task that raised it.
    pub(crate) fn raise(&mut self, count: u16, task: u16, start: Tick, raiser: Option<u16>)
        requires task { task < count }
        requires count { length self.old.cells ≡ 2 * count }
        requires notes { HasNotes self.old }
        ensures cells { self.new.cells ≡ raised count self.old.cells task start raiser }
        ensures wrote { Wrote self.old self.new }
    {
        self.write(task as u32, start);
        self.write(count as u32 + task as u32, code_of(raiser));
    }

    /// Writes when a task of so many starts, and the task that raised it, without a note.
    pub(crate) fn fill(&mut self, count: u16, task: u16, start: Tick, raiser: Option<u16>)
        requires task { task < count }
        requires count { length self.old.cells ≡ 2 * count }
        ensures cells { self.new.cells ≡ raised count self.old.cells task start raiser }
        ensures trail { self.new.trail ≡ self.old.trail }
        ensures noted { self.new.noted.items ≡ self.old.noted.items }
    {
        self.cells.set(task as u32, start);
        self.cells.set(count as u32 + task as u32, code_of(raiser));
    }

    /// Writes back what was noted past the mark.
    pub(crate) fn back(&mut self, mark: u32)
        requires mark { mark ≤ length self.old.trail.notes }
        requires places { All (λ note. note.place < length self.old.cells) self.old.trail.notes }
        ensures trail { self.new.trail ≡ record self.old.trail { notes = take mark self.old.trail.notes } }
        ensures cells { self.new.cells ≡ written_back (drop mark self.old.trail.notes) self.old.cells }
        ensures noted { self.new.noted.items ≡ self.old.noted.items }
    {
        self.trail.back(mark, &mut self.cells);
    }
}
