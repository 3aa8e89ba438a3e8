//! Entries of the planner's own order and of release times that say nothing.
ghost use Rattle.qc_voice.specs.Frame.{LeavesFiles};

use crate::texts::{instance_of, ship_of};
use qc_hints::{say_idle_pair, say_idle_release};
use qc_io::Shelf;
use qc_model::Instance;
use qc_page::Page;
use qc_run::Inputs;
use qc_ship::{NamePair, NameTick, Ship, TaskName};

/// Whether the list has a move of the task of this name.
fn has_task(inst: &Instance, name: TaskName) -> bool {
    inst.tasks().iter().any(|task| task.hatch == name.hatch && task.phase == name.phase)
}

/// Notes which of these pairs name a task without a move.
fn say_idle(page: &mut Page, file: &str, bytes: &[u8], pairs: &[NamePair], inst: &Instance) {
    let mut number = 0u32;
    for pair in pairs {
        number = number.saturating_add(1);
        if !has_task(inst, pair.first) || !has_task(inst, pair.second) {
            say_idle_pair(page, file, bytes, number)
        }
    }
}

/// Notes which of these entries name a task without a move.
fn say_idle_releases(
    page: &mut Page,
    file: &str,
    bytes: &[u8],
    entries: &[NameTick],
    inst: &Instance,
) {
    let mut number = 0u32;
    for entry in entries {
        number = number.saturating_add(1);
        if !has_task(inst, entry.name) {
            say_idle_release(page, file, bytes, number)
        }
    }
}

/// Whether a ship has no entry that names a task.
fn names_none(ship: &Ship) -> bool {
    ship.before().is_empty() && ship.not_before().is_empty()
}

/// Notes which entries of a ship file's order and release times name a task without a move in the list.
pub(crate) fn say_idle_entries<S: Shelf>(
    page: &mut Page,
    shelf: &mut S,
    inputs: &Inputs<'_>,
    file: &str,
    bytes: &[u8],
)
    ensures { LeavesFiles (S.Sink.view shelf.old) (S.Sink.view shelf.new) }
{
    let Some(ship) = ship_of(page, bytes) else {
        return;
    };
    if names_none(&ship) {
        return;
    }
    if let Some(inst) = instance_of(page, shelf, inputs, bytes) {
        say_idle(page, file, bytes, ship.before(), &inst);
        say_idle_releases(page, file, bytes, ship.not_before(), &inst)
    }
}
