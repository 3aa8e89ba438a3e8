//! The files that a command reads.
ghost use Rattle.std.specs.Prelude.{◌≡◌, ◌⊎◌, IfOk, IfSome, All, IsSome};
ghost use Rattle.qc_model.specs.Judge.{IsJudgeable};
ghost use Rattle.qc_ship.specs.Ship.{place_of_bay};
ghost use Rattle.qc_run.specs.Inputs.{IsWhole, name_of, names_of};
ghost use Rattle.qc_run.specs.Due.{input_due, ship_due, moves_due, instance_due, schedule_due, job_due, order_due, own_due, own_job_due};
ghost use Rattle.qc_run.specs.Steps.{IsDue, IsStep};
ghost use Rattle.qc_tasks.specs.InstanceOf.{instance_of};

use crate::inputs::{Input, Inputs};
use crate::refusal::{Refusal, Stop};
use qc_gantt::{PlanError, read_plan};
use qc_io::{ReadAll, Shelf, read_all};
use qc_model::{Instance, Schedule};
use qc_num::Bytes;
use qc_ship::{Key, Ship, ShipError, ShipFault, ShipKind, read_ship};
use qc_stow::{Moves, StowError, read_stow};
use qc_tasks::{TasksError, tasks_of};
use std::alloc::Global;

/// The greatest length of a file that is read whole, in bytes: of all but a tree's file.
pub(crate) const FILE_LIMIT: usize = 8_388_608;

/// The bytes of a file that the command reads.
pub fn read_input<S: Shelf>(
    alloc: Global,
    inputs: &Inputs<'_>,
    file: Input,
    shelf: &mut S,
) -> Result<Bytes, Stop>
    requires named { IsSome (name_of file (names_of inputs.now)) }
    requires whole { IsWhole file (names_of inputs.now) }
    ensures { IsStep (input_due file) (names_of inputs.now)
        (S.Sink.view shelf.old) (S.Sink.view shelf.new) result }
{
    let Some(name) = inputs.name_of(file) else {
        unreachable!()
    };
    match read_all(alloc, shelf, name, FILE_LIMIT) {
        Ok(bytes) => Ok(bytes),
        Err(ReadAll::ReadFault) => Err(Stop::Refused(Refusal::ReadFault(file))),
        Err(ReadAll::TooLarge) => Err(Stop::Refused(Refusal::TooLarge(file))),
        Err(ReadAll::OutOfMemory) => Err(Stop::OutOfMemory),
    }
}

/// The ship of the ship file.
pub fn read_ship_file<S: Shelf>(
    alloc: Global,
    inputs: &Inputs<'_>,
    shelf: &mut S,
) -> Result<Ship, Stop>
    ensures { IsStep ship_due (names_of inputs.now)
        (S.Sink.view shelf.old) (S.Sink.view shelf.new) result }
{
    let bytes = read_input(alloc, inputs, Input::Ship, shelf)?;
    match read_ship(alloc, bytes.as_slice()) {
        Ok(ship) => Ok(ship),
        Err(ShipError::Fault(fault)) => Err(Stop::Refused(Refusal::BadShip(fault))),
        Err(ShipError::OutOfMemory) => Err(Stop::OutOfMemory),
    }
}

/// The moves of the stowage list, each at a bay that a hatch of the ship takes.
pub fn read_moves<S: Shelf>(
    alloc: Global,
    inputs: &Inputs<'_>,
    ship: &Ship,
    shelf: &mut S,
) -> Result<Moves, Stop>
    requires { IsSome (names_of inputs.now).stow }
    ensures step { IsStep (moves_due ship.now) (names_of inputs.now)
        (S.Sink.view shelf.old) (S.Sink.view shelf.new) result }
    ensures hatches { IfOk result (All (λ row. IsSome (place_of_bay ship.now row.cell.bay))) }
{
    let bytes = read_input(alloc, inputs, Input::Stow, shelf)?;
    match read_stow(alloc, bytes.as_slice(), ship) {
        Ok(moves) => Ok(moves),
        Err(StowError::Fault(fault)) => Err(Stop::Refused(Refusal::BadStow(fault))),
        Err(StowError::OutOfMemory) => Err(Stop::OutOfMemory),
    }
}

/// The instance of a ship and its moves, or why there is none: the planner's own order has a ring.
pub fn instance_of(alloc: Global, ship: &Ship, moves: &Moves) -> Result<Instance, Stop>
    ensures instance { IfOk result (λ inst. inst ≡ instance_of ship.now moves.now) }
    ensures due { IsDue (order_due ship.now moves.now) result }
{
    match tasks_of(alloc, ship, moves) {
        Ok(inst) => Ok(inst),
        Err(TasksError::Ring(number)) => Err(Stop::Refused(Refusal::BadShip(ShipFault {
            kind: ShipKind::Ring,
            key: Key::Before,
            number,
        }))),
        Err(TasksError::OutOfMemory) => Err(Stop::OutOfMemory),
    }
}

/// The instance of the ship file and the stowage list, with the turn that is asked about, or why there is none.
pub fn read_instance<S: Shelf>(
    alloc: Global,
    inputs: &Inputs<'_>,
    shelf: &mut S,
) -> Result<Instance, Stop>
    requires { IsSome (names_of inputs.now).stow }
    ensures step { IsStep instance_due (names_of inputs.now)
        (S.Sink.view shelf.old) (S.Sink.view shelf.new) result }
    ensures turn { IfOk result (λ inst. inst.turn ≡ inputs.now.turn) }
{
    let ship = read_ship_file(alloc, inputs, shelf)?;
    let moves = read_moves(alloc, inputs, &ship, shelf)?;
    let inst = instance_of(alloc, &ship, &moves)?;
    Ok(inst.with_turn(inputs.turn))
}

/// An instance and a schedule for it.
#[derive(Drop)]
pub struct Job {
    pub inst: Instance,
    pub sched: Schedule,
}

/// The schedule of the plan in a file.
pub fn read_schedule<S: Shelf>(
    alloc: Global,
    inputs: &Inputs<'_>,
    file: Input,
    inst: &Instance,
    shelf: &mut S,
) -> Result<Schedule, Stop>
    requires named { IsSome (name_of file (names_of inputs.now)) }
    requires whole { IsWhole file (names_of inputs.now) }
    requires may { IsSome (names_of inputs.now).plan ⊎ IsSome (names_of inputs.now).own }
    ensures step { IsStep (schedule_due file inst.now) (names_of inputs.now)
        (S.Sink.view shelf.old) (S.Sink.view shelf.new) result }
    ensures judgeable { IfOk result (λ sched. IsJudgeable inst.now sched) }
{
    let bytes = read_input(alloc, inputs, file, shelf)?;
    match read_plan(alloc, bytes.as_slice(), inst) {
        Ok(sched) => Ok(sched),
        Err(PlanError::Fault(fault)) => Err(Stop::Refused(Refusal::BadPlan(fault))),
        Err(PlanError::OutOfMemory) => Err(Stop::OutOfMemory),
    }
}

/// The instance of the ship file and the stowage list, and the schedule of the plan's file.
pub fn read_job<S: Shelf>(alloc: Global, inputs: &Inputs<'_>, shelf: &mut S) -> Result<Job, Stop>
    requires stow { IsSome (names_of inputs.now).stow }
    requires plan { IsSome (names_of inputs.now).plan }
    ensures step { IsStep job_due (names_of inputs.now)
        (S.Sink.view shelf.old) (S.Sink.view shelf.new) result }
    ensures judgeable { IfOk result (λ job. IsJudgeable job.inst job.sched) }
{
    let inst = read_instance(alloc, inputs, shelf)?;
    let sched = read_schedule(alloc, inputs, Input::Plan, &inst, shelf)?;
    Ok(Job { inst, sched })
}

/// An instance, and the schedule that the planner has for it already, if any.
#[derive(Drop)]
pub struct OwnJob {
    pub inst: Instance,
    pub own: Option<Schedule>,
}

/// The schedule of the planner's own plan, where its file is named.
fn read_own<S: Shelf>(
    alloc: Global,
    inputs: &Inputs<'_>,
    inst: &Instance,
    shelf: &mut S,
) -> Result<Option<Schedule>, Stop>
    ensures step { IsStep (own_due (names_of inputs.now).own inst.now) (names_of inputs.now)
        (S.Sink.view shelf.old) (S.Sink.view shelf.new) result }
    ensures judgeable { IfOk result (λ own. IfSome own (IsJudgeable inst.now)) }
{
    if inputs.own.is_none() {
        return Ok(None);
    }
    let sched = read_schedule(alloc, inputs, Input::Own, inst, shelf)?;
    Ok(Some(sched))
}

/// The instance of the ship file and the stowage list, and the schedule of the planner's own plan, where its file is
/// named.
pub fn read_own_job<S: Shelf>(
    alloc: Global,
    inputs: &Inputs<'_>,
    shelf: &mut S,
) -> Result<OwnJob, Stop>
    requires { IsSome (names_of inputs.now).stow }
    ensures step { IsStep (own_job_due (names_of inputs.now).own) (names_of inputs.now)
        (S.Sink.view shelf.old) (S.Sink.view shelf.new) result }
    ensures judgeable { IfOk result (λ job. IfSome job.own (IsJudgeable job.inst)) }
    ensures turn { IfOk result (λ job. job.inst.turn ≡ inputs.now.turn) }
{
    let inst = read_instance(alloc, inputs, shelf)?;
    let own = read_own(alloc, inputs, &inst, shelf)?;
    Ok(OwnJob { inst, own })
}
