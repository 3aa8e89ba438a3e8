//! What the containers so far have taken.

ghost use Rattle.std.specs.Prelude.{◌≡◌, [], ◌∷◌, ◌++◌, map, not, IfOk, IsTrue};
ghost use Rattle.qc_stow.specs.declared.row.Move.TheVariants.{Load};
ghost use Rattle.qc_stow.specs.Taken.{has_taken_cell, slots_of};
ghost use Rattle.qc_bayplan.specs.Taken.{TakenView, has_taken_id};

use indexmap::IndexSet;
use qc_num::OutOfMemory;
use qc_ship::Cell;
use qc_stow::{Move, Taken as TakenByMoves};
use std::alloc::Global;
use std::marker::Model;

/// The ids and the slots of 20 feet that containers have taken: the slots as loads take them.
#[derive(Drop)]
pub(crate) struct Taken {
    ids: IndexSet<Vec<u8>>,
    cells: TakenByMoves<'static>,
}

impl Model for Taken {
    ghost Value = { TakenView };

    ghost view = { λ t. record {
      ids = map (λ key. key.items) t.ids.keys;
      slots = t.cells.slots;
    } };
}

impl Taken {
    /// Nothing is taken.
    pub(crate) fn new(alloc: Global) -> Taken
        ensures ids { result.ids ≡ [] }
        ensures slots { result.slots ≡ [] }
    {
        Taken {
            ids: IndexSet::new(alloc),
            cells: TakenByMoves::new(alloc),
        }
    }

    /// Takes an id; `false` where it is taken already.
    pub(crate) fn take_id(&mut self, id: Vec<u8>) -> Result<bool, OutOfMemory>
        ensures new { IfOk result (λ new. new ≡ not (has_taken_id self.old.ids id.items)) }
        ensures ids { IfOk result
            (λ new. IsTrue new → self.new.ids ≡ self.old.ids ++ id.items ∷ []) }
        ensures slots { self.new.slots ≡ self.old.slots }
    {
        Ok(self.ids.insert(id)?)
    }

    /// Takes the slots of a cell; `false` where one of them is taken already.
    pub(crate) fn take_cell(&mut self, cell: Cell) -> Result<bool, OutOfMemory>
        ensures new { IfOk result (λ new. new ≡ not (has_taken_cell self.old.slots Load cell)) }
        ensures slots { IfOk result
            (λ new. IsTrue new → self.new.slots ≡ self.old.slots
            ++ map (λ slot. (Load, slot)) (slots_of cell)) }
        ensures ids { self.new.ids ≡ self.old.ids }
    {
        self.cells.take_cell(Move::Load, cell)
    }
}
