//! The files of a work sheet.
ghost use Rattle.std.specs.Prelude.{IfOk, IsSome};
ghost use Rattle.qc_run.specs.Inputs.{names_of};
ghost use Rattle.qc_run.specs.Steps.{IsStep};
ghost use Rattle.qc_sheet_command.specs.Due.{cargo_due, load_due};
ghost use Rattle.qc_sheet_command.specs.Listed.{IsCargo, IsLoad};

use qc_io::Shelf;
use qc_model::{Instance, Schedule};
use qc_run::{Input, Inputs, Stop, instance_of, read_moves, read_schedule, read_ship_file};
use qc_ship::Ship;
use qc_stow::Moves;
use std::alloc::Global;

/// A ship, its moves, and the instance of both.
#[derive(Drop)]
pub struct Cargo {
    pub ship: Ship,
    pub moves: Moves,
    pub inst: Instance,
}

/// All that a work sheet needs of the files.
pub struct Load {
    pub cargo: Cargo,
    pub sched: Schedule,
}

/// By hand, so that a load is let go by one call wherever it is held, and not piece by piece.
impl Drop for Load {
    fn drop(self) {
        let Load { cargo: _, sched: _ } = self;
    }
}

/// The ship of the ship file, the moves of the stowage list, and their instance.
pub fn read_cargo<S: Shelf>(
    alloc: Global,
    inputs: &Inputs<'_>,
    shelf: &mut S,
) -> Result<Cargo, Stop>
    requires { IsSome (names_of inputs.now).stow }
    ensures step { IsStep cargo_due (names_of inputs.now)
        (S.Sink.view shelf.old) (S.Sink.view shelf.new) result }
    ensures cargo { IfOk result IsCargo }
{
    let ship = read_ship_file(alloc, inputs, shelf)?;
    let moves = read_moves(alloc, inputs, &ship, shelf)?;
    let inst = instance_of(alloc, &ship, &moves)?;
    Ok(Cargo { ship, moves, inst })
}

/// The same, and the schedule of the plan's file.
pub fn read_load<S: Shelf>(alloc: Global, inputs: &Inputs<'_>, shelf: &mut S) -> Result<Load, Stop>
    requires stow { IsSome (names_of inputs.now).stow }
    requires plan { IsSome (names_of inputs.now).plan }
    ensures step { IsStep load_due (names_of inputs.now)
        (S.Sink.view shelf.old) (S.Sink.view shelf.new) result }
    ensures load { IfOk result IsLoad }
{
    let cargo = read_cargo(alloc, inputs, shelf)?;
    let sched = read_schedule(alloc, inputs, Input::Plan, &cargo.inst, shelf)?;
    Ok(Load { cargo, sched })
}
