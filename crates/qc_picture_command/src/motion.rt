//! Reading and judging a plan, and the waypoints of its cranes.
ghost use Rattle.std.specs.Prelude.{◌≡◌, IfOk, IsSome};
ghost use Rattle.qc_figures.specs.Motions.{IsWay};
ghost use Rattle.qc_model.specs.Judge.{IsJudgeable};
ghost use Rattle.qc_model.specs.Rules.{Feasible};
ghost use Rattle.qc_run.specs.Account.{IsFound, IsReading};
ghost use Rattle.qc_run.specs.Inputs.{names_of};
ghost use Rattle.qc_run.specs.Steps.{Stops};
ghost use Rattle.qc_sheet_command.specs.Due.{load_due};
ghost use Rattle.qc_sheet_command.specs.Listed.{IsLoad};
ghost use Rattle.qc_picture_command.specs.Motion.{CanBePrinted, IsPrintable, TellsMotion};

use crate::answer::{Motion, Planned};
use qc_figures::tracks_of;
use qc_io::Shelf;
use qc_model::{Direction, Instance, Schedule, direction_of};
use qc_num::OutOfMemory;
use qc_run::{Inputs, Stop, broken_of, broken_rule};
use qc_sheet_command::{Load, read_load};
use std::alloc::Global;

/// The way in which a schedule goes; `None` where it goes neither way.
fn way_of(inst: &Instance, sched: &Schedule) -> Option<Direction>
    requires { IsJudgeable inst.now sched.now }
    ensures { IsWay inst.now sched.now result }
{
    match direction_of(inst, sched) {
        Ok(direction) => Some(direction),
        Err(_) => None,
    }
}

/// A feasible plan with the waypoints of its cranes.
fn planned(alloc: Global, load: Load) -> Result<Planned, OutOfMemory>
    requires load { IsLoad load }
    requires feasible { Feasible load.cargo.inst load.sched }
    ensures load { IfOk result (λ planned. planned.load ≡ load) }
    ensures printable { IfOk result IsPrintable }
{
    let inst = &load.cargo.inst;
    let way = way_of(inst, &load.sched);
    let tracks = tracks_of(alloc, inst, &load.sched, way)?;
    Ok(Planned { load, way, tracks })
}

/// Reads the ship file, the stowage list and the plan's file and judges the plan; where it is feasible
/// with the waypoints of its cranes.
pub(crate) fn read_motion<S: Shelf>(
    alloc: Global,
    inputs: &Inputs<'_>,
    shelf: &mut S,
) -> Result<Motion, Stop>
    requires stow { IsSome (names_of inputs.now).stow }
    requires plan { IsSome (names_of inputs.now).plan }
    ensures serves { IsReading (IsFound load_due TellsMotion (names_of inputs.now) (S.Sink.view shelf.old).files)
        (Stops load_due (names_of inputs.now) (S.Sink.view shelf.old) (S.Sink.view shelf.new))
        (names_of inputs.now) (S.Sink.view shelf.old) (S.Sink.view shelf.new) result }
    ensures ready { IfOk result CanBePrinted }
{
    let load = match read_load(alloc, inputs, shelf) {
        Ok(load) => load,
        Err(stop) => return Err(stop),
    };
    if let Some(broken) = broken_rule(&load.cargo.inst, &load.sched) {
        return Ok(Motion::Broken(broken_of(&load.cargo.inst, broken)));
    }
    match planned(alloc, load) {
        Ok(plan) => Ok(Motion::Planned(plan)),
        Err(OutOfMemory) => Err(Stop::OutOfMemory),
    }
}
