//! The command that makes a ship and a stowage list from numbers, and plans and checks them.
ghost use Rattle.std.specs.Prelude.{◌≡◌, ◌≤◌, IfOk, IfSome, option_map};
ghost use Rattle.qc_model.specs.declared.limits.TheConstants.{MOST_CRANES, MOST_HATCHES};
ghost use Rattle.qc_model.specs.Judge.{IsJudgeable};
ghost use Rattle.qc_model.specs.Rules.{ends};
ghost use Rattle.qc_model.specs.declared.turn.Turn.TheVariants.{OneWay};
ghost use Rattle.qc_trial.specs.Account.{IsMaking, IsTrialRun, TrialPromises};
ghost use Rattle.qc_run.specs.Steps.{IsDue};
ghost use Rattle.qc_trial.specs.Made.{made_due, moves_due, ship_due};

use crate::made::Made;
use crate::stored::{check_stored, store_search};
use crate::summary::made_text;
use qc_io::{MemShelf, Sink};
use qc_make::{list_text, ship_text};
use qc_model::{Instance, ends};
use qc_num::Tick;
use qc_run::{Ended, Refusal, Status, Stop, instance_of, report_stop, report_text};
use qc_search::Done;
use qc_ship::{Ship, ShipError, read_ship};
use qc_stow::{Moves, StowError, read_stow};
use std::alloc::Global;

/// The ship of the made ship file.
fn made_ship(alloc: Global, hatches: u16, cranes: u16) -> Result<Ship, Stop>
    requires hatches { (1 ≤ hatches) × (hatches ≤ MOST_HATCHES) }
    requires cranes { (1 ≤ cranes) × (cranes ≤ MOST_CRANES) }
    ensures { IsDue (ship_due hatches cranes) result }
{
    let text = ship_text(alloc, hatches, cranes)?;
    match read_ship(alloc, text.as_slice()) {
        Ok(ship) => Ok(ship),
        Err(ShipError::Fault(fault)) => Err(Stop::Refused(Refusal::BadShip(fault))),
        Err(ShipError::OutOfMemory) => Err(Stop::OutOfMemory),
    }
}

/// The moves of the made list.
fn made_moves(alloc: Global, number: u32, hatches: u16, ship: &Ship) -> Result<Moves, Stop>
    requires { hatches ≤ MOST_HATCHES }
    ensures { IsDue (moves_due number hatches ship.now) result }
{
    let text = list_text(alloc, number, hatches)?;
    match read_stow(alloc, text.as_slice(), ship) {
        Ok(moves) => Ok(moves),
        Err(StowError::Fault(fault)) => Err(Stop::Refused(Refusal::BadStow(fault))),
        Err(StowError::OutOfMemory) => Err(Stop::OutOfMemory),
    }
}

/// How many moves are made, and their instance, as the files are read.
fn made_instance(
    alloc: Global,
    number: u32,
    hatches: u16,
    cranes: u16,
) -> Result<(u64, Instance), Stop>
    requires hatches { (1 ≤ hatches) × (hatches ≤ MOST_HATCHES) }
    requires cranes { (1 ≤ cranes) × (cranes ≤ MOST_CRANES) }
    ensures due { IsDue (made_due number hatches cranes) result }
    ensures turn { IfOk result (λ made. made.1.turn ≡ OneWay) }
{
    let ship = made_ship(alloc, hatches, cranes)?;
    let moves = made_moves(alloc, number, hatches, &ship)?;
    let inst = instance_of(alloc, &ship, &moves)?;
    Ok((moves.rows().len() as u64, inst))
}

/// The end of the best schedule, if one was met.
fn end_of(inst: &Instance, done: &Done) -> Option<Tick>
    requires { IfSome done.now.best (IsJudgeable inst.now) }
    ensures { result ≡ option_map (ends inst.now) done.now.best }
{
    match done.best() {
        Some(sched) => Some(ends(inst, sched)),
        None => None,
    }
}

/// What is told of the ship and the list of these numbers.
fn try_out(alloc: Global, number: u32, hatches: u16, cranes: u16) -> Result<Made, Stop>
    requires hatches { (1 ≤ hatches) × (hatches ≤ MOST_HATCHES) }
    requires cranes { (1 ≤ cranes) × (cranes ≤ MOST_CRANES) }
    ensures { IsMaking number hatches cranes result }
{
    let (rows, inst) = made_instance(alloc, number, hatches, cranes)?;
    let mut shelf = MemShelf::new(alloc)?;
    let done = store_search(alloc, &inst, &mut shelf)?;
    let verdict = check_stored(alloc, &inst, &done, &mut shelf)?;
    Ok(Made {
        number,
        hatches,
        cranes,
        rows,
        tasks: inst.tasks().len() as u64,
        work: inst.work(),
        kind: done.kind(),
        end: end_of(&inst, &done),
        bound: done.bound(),
        verdict,
    })
}

/// Makes a ship and a list from a number, plans and checks them, and prints a summary.
pub fn make<K: Sink>(alloc: Global, number: u32, hatches: u16, cranes: u16, out: &mut K) -> Ended
    requires hatches { (1 ≤ hatches) × (hatches ≤ MOST_HATCHES) }
    requires cranes { (1 ≤ cranes) × (cranes ≤ MOST_CRANES) }
    ensures account { IsTrialRun number hatches cranes (K.view out.old) (K.view out.new) result.status }
    ensures promises { TrialPromises number hatches cranes (K.view out.old) (K.view out.new) result.status }
{
    match try_out(alloc, number, hatches, cranes) {
        Ok(told) => report_text(Status::Done, made_text(&told).as_bytes(), out),
        Err(why) => report_stop(why, out),
    }
}
