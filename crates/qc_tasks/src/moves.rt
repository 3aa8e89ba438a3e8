//! Which moves a hatch has in a phase.
ghost use Rattle.std.specs.Prelude.{◌≡◌};
ghost use Rattle.qc_tasks.specs.InstanceOf.{is_move_at, is_move_of, moves_at, phase_with};

use qc_model::{Phase, Task};
use qc_ship::takes;
use qc_stow::{Move, Row};

/// The phase of a move of this kind, on deck or in the hold.
fn phase_with(kind: Move, on_deck: bool) -> Phase
    ensures { result ≡ phase_with kind on_deck }
{
    match (kind, on_deck) {
        (Move::Discharge, true) => Phase::DeckOut,
        (Move::Discharge, false) => Phase::HoldOut,
        (Move::Load, false) => Phase::HoldIn,
        (Move::Load, true) => Phase::DeckIn,
    }
}

/// Whether a move is one of a hatch's moves in a phase.
fn is_move_at(hatch: u16, phase: Phase, row: &Row) -> bool
    ensures { result ≡ is_move_at hatch phase row.now }
{
    takes(hatch, row.cell.bay) && phase_with(row.kind, row.cell.is_deck()).rank() == phase.rank()
}

/// How many moves a hatch has in a phase.
pub(crate) fn moves_at(rows: &[Row], hatch: u16, phase: Phase) -> usize
    ensures { result ≡ moves_at rows.now hatch phase }
{
    rows.iter()
        .filter(|row| is_move_at(hatch, phase, row))
        .count()
}

/// Whether a move is one of a task's moves: those of its hatch and phase.
pub fn is_move_of(task: &Task, row: &Row) -> bool
    ensures { result ≡ is_move_of task.now row.now }
{
    is_move_at(task.hatch, task.phase, row)
}
