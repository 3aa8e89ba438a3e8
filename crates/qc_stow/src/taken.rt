//! What the moves so far have taken.

ghost use Rattle.std.specs.Prelude.{◌≡◌, [], ◌∷◌, ◌++◌, map, not, IfOk, IsTrue};
ghost use Rattle.qc_stow.specs.Taken.{has_taken_cell, has_taken_id, has_taken_slot, slots_of, TakenView};

use crate::row::Move;
use indexmap::IndexSet;
use qc_num::OutOfMemory;
use qc_ship::Cell;
use std::alloc::Global;
use std::marker::Model;

/// A slot of 20 feet.
#[derive(Clone, Copy, PartialEq, Eq, Hash)]
pub struct Slot {
    bay: u16,
    row: u8,
    tier: u8,
}

/// The ids and the slots of 20 feet that moves have taken, each by a kind of move.
#[derive(Drop)]
pub struct Taken<'a> {
    ids: IndexSet<(Move, &'a [u8])>,
    slots: IndexSet<(Move, Slot)>,
}

impl<'a> Model for Taken<'a> {
    ghost Value = { TakenView };

    ghost view = { λ t. record {
      ids = map (λ key. (key.0, key.1.now)) t.ids.keys;
      slots = t.slots.keys;
    } };
}

impl<'a> Taken<'a> {
    /// Nothing is taken.
    pub fn new(alloc: Global) -> Taken<'a>
        ensures ids { result.ids ≡ [] }
        ensures slots { result.slots ≡ [] }
    {
        Taken {
            ids: IndexSet::new(alloc),
            slots: IndexSet::new(alloc),
        }
    }

    /// Takes an id for a kind of move; `false` where it is taken already.
    pub(crate) fn take_id(&mut self, kind: Move, id: &'a [u8]) -> Result<bool, OutOfMemory>
        ensures new { IfOk result (λ new. new ≡ not (has_taken_id self.old.ids kind id.now)) }
        ensures ids { IfOk result (λ new. IsTrue new → self.new.ids ≡ self.old.ids
            ++ (kind, id.now) ∷ []) }
        ensures slots { self.new.slots ≡ self.old.slots }
    {
        Ok(self.ids.insert((kind, id))?)
    }

    /// Takes a slot; `false` where it is taken already.
    fn take_slot(&mut self, kind: Move, slot: Slot) -> Result<bool, OutOfMemory>
        ensures new { IfOk result (λ new. new ≡ not (has_taken_slot self.old.slots kind slot)) }
        ensures slots { IfOk result
            (λ new. IsTrue new → self.new.slots ≡ self.old.slots ++ (kind, slot) ∷ []) }
        ensures ids { self.new.ids ≡ self.old.ids }
    {
        Ok(self.slots.insert((kind, slot))?)
    }

    /// Takes the slots of a cell; `false` where one of them is taken already.
    pub fn take_cell(&mut self, kind: Move, cell: Cell) -> Result<bool, OutOfMemory>
        ensures new { IfOk result (λ new. new ≡ not (has_taken_cell self.old.slots kind cell)) }
        ensures slots { IfOk result
            (λ new. IsTrue new → self.new.slots ≡ self.old.slots
            ++ map (λ slot. (kind, slot)) (slots_of cell)) }
        ensures ids { self.new.ids ≡ self.old.ids }
    {
        let (first, last) = cell.slots();
        let slot = Slot {
            bay: first,
            row: cell.row,
            tier: cell.tier,
        };
        if !self.take_slot(kind, slot)? {
            return Ok(false);
        }
        if last == first {
            return Ok(true);
        }
        self.take_slot(kind, Slot { bay: last, ..slot })
    }
}
