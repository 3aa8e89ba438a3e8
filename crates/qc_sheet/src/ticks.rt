//! When each move of a task begins.

ghost use Rattle.std.specs.Prelude.{◌≡◌, ◌<◌, ◌≤◌};
ghost use Rattle.qc_model.specs.Numbers.{most_start};
ghost use Rattle.qc_stow.specs.Moves.{most_moves};
ghost use Rattle.qc_ship.specs.Ship.{IsShip};
ghost use Rattle.qc_sheet.specs.SheetText.{move_ticks, opening_ticks, tick_at};

use qc_model::Phase;
use qc_num::Tick;
use qc_ship::Ship;

/// The ticks of a move.
fn move_ticks(ship: &Ship, phase: Phase) -> Tick
    ensures ticks { result ≡ move_ticks ship.now phase }
    ensures ship { IsShip ship.now }
{
    match phase {
        Phase::DeckOut | Phase::DeckIn => ship.deck_move(),
        Phase::HoldOut | Phase::HoldIn => ship.hold_move(),
    }
}

/// The ticks of a task before its first move: a discharge in the hold begins with the hatch cover.
fn opening_ticks(ship: &Ship, phase: Phase) -> Tick
    ensures ticks { result ≡ opening_ticks ship.now phase }
    ensures bound { result ≤ 10000 }
{
    match phase {
        Phase::HoldOut => ship.cover(),
        Phase::DeckOut | Phase::HoldIn | Phase::DeckIn => 0,
    }
}

/// The tick at which the move begins that has so many before it in its task.
pub(crate) fn tick_at(ship: &Ship, phase: Phase, start: Tick, place: usize) -> Tick
    requires start { start ≤ most_start }
    requires place { place < most_moves }
    ensures { result ≡ tick_at ship.now phase start place }
{
    start + opening_ticks(ship, phase) + place as Tick * move_ticks(ship, phase)
}
