//! The tasks of a ship.
ghost use Rattle.std.specs.Prelude.{◌≡◌, ◌≤◌, ◌+◌, ◌++◌, length, find, IfOk, OnOk};
ghost use Rattle.std.specs.List.{flat_map};
ghost use Rattle.qc_stow.specs.Moves.{most_moves};
ghost use Rattle.qc_tasks.specs.InstanceOf.{is_name_of, phases, release_at, tasks_at, tasks_of, ticks_in};

use crate::moves::moves_at;
use qc_model::{Phase, Task};
use qc_num::{Bay, OutOfMemory, Tick};
use qc_ship::{NameTick, Ship, TaskName};
use qc_stow::Row;
use std::alloc::Global;

/// The ticks of so many moves in a phase.
fn ticks_in(ship: &Ship, phase: Phase, moves: usize) -> Tick
    requires { moves ≤ most_moves }
    ensures { result ≡ ticks_in ship.now phase moves }
{
    let moves = moves as Tick;
    match phase {
        Phase::DeckOut | Phase::DeckIn => moves * ship.deck_move(),
        Phase::HoldOut | Phase::HoldIn => moves * ship.hold_move() + ship.cover(),
    }
}

/// Whether a name is that of the task of a hatch and a phase.
pub(crate) fn is_name_of(hatch: u16, phase: Phase, name: TaskName) -> bool
    ensures { result ≡ is_name_of hatch phase name }
{
    hatch == name.hatch && phase.rank() == name.phase.rank()
}

/// The entry that names the task of a hatch and a phase.
fn entry_of(entries: &[NameTick], hatch: u16, phase: Phase) -> Option<NameTick>
    ensures { result ≡ find (λ entry. is_name_of hatch phase entry.name) entries.now }
{
    entries
        .iter()
        .copied()
        .find(|entry| is_name_of(hatch, phase, entry.name))
}

/// The tick before which the task of a hatch and a phase doesn't start; 0 where it may start at any.
fn release_at(entries: &[NameTick], hatch: u16, phase: Phase) -> Tick
    ensures { result ≡ release_at entries.now hatch phase }
{
    match entry_of(entries, hatch, phase) {
        Some(entry) => entry.tick,
        None => 0,
    }
}

/// Adds the task of a hatch and a phase, if it has a move.
fn push_task(
    tasks: &mut Vec<Task>,
    ship: &Ship,
    rows: &[Row],
    hatch: u16,
    place: u16,
    phase: Phase,
) -> Result<(), OutOfMemory>
    requires { length rows.now ≤ most_moves }
    ensures { OnOk result (tasks.new.items ≡ tasks.old.items
        ++ tasks_at ship.now rows.now hatch place phase) }
{
    let moves = moves_at(rows, hatch, phase);
    if moves > 0 {
        let ticks = ticks_in(ship, phase, moves);
        tasks.push(Task {
            hatch,
            phase,
            bay: Bay::from(place),
            ticks,
            release: release_at(ship.not_before(), hatch, phase),
        })?;
    }
    Ok(())
}

/// Adds the tasks of a hatch in order of their phases.
fn push_tasks(
    tasks: &mut Vec<Task>,
    ship: &Ship,
    rows: &[Row],
    hatch: u16,
    place: u16,
) -> Result<(), OutOfMemory>
    requires { length rows.now ≤ most_moves }
    ensures { OnOk result (tasks.new.items ≡ tasks.old.items
        ++ flat_map (tasks_at ship.now rows.now hatch place) phases) }
{
    push_task(tasks, ship, rows, hatch, place, Phase::DeckOut)?;
    push_task(tasks, ship, rows, hatch, place, Phase::HoldOut)?;
    push_task(tasks, ship, rows, hatch, place, Phase::HoldIn)?;
    push_task(tasks, ship, rows, hatch, place, Phase::DeckIn)
}

/// The tasks in order of hatch, then phase: those that have a move.
pub(crate) fn tasks_of(alloc: Global, ship: &Ship, rows: &[Row]) -> Result<Vec<Task>, OutOfMemory>
    requires { length rows.now ≤ most_moves }
    ensures { IfOk result (λ v. v.items ≡ tasks_of ship.now rows.now) }
{
    let mut tasks = Vec::new(alloc);
    for (hatch, place) in ship.hatches().iter().zip(ship.places()) {
        push_tasks(&mut tasks, ship, rows, *hatch, *place)?;
    }
    Ok(tasks)
}
