//! The bay plans of a ship as it arrives and for its departure.
ghost use Rattle.std.specs.Prelude.{◌≤◌, IfOk, length};
ghost use Rattle.qc_run.specs.Inputs.{bay_plans_named, input_of, moving};
ghost use Rattle.qc_run.specs.Due.{bay_plan_due, bay_plans_due, file_limit, input_due};
ghost use Rattle.qc_run.specs.Steps.{IsStep};

use crate::inputs::{MovesAsked, input_of};
use crate::reading::FILE_LIMIT;
use crate::refusal::{Refusal, Stop};
use qc_bayplan::{BayPlan, BayPlanError, Which, read_bay_plan};
use qc_io::{ReadAll, Shelf, read_all};
use qc_num::Bytes;
use std::alloc::Global;

/// The bay plans of a call at a port.
#[derive(Drop)]
pub struct BayPlans {
    pub arrival: BayPlan,
    pub departure: BayPlan,
}

/// The bytes of a bay plan's file.
fn read_bay_plan_input<S: Shelf>(
    alloc: Global,
    asked: &MovesAsked<'_>,
    which: Which,
    shelf: &mut S,
) -> Result<Bytes, Stop>
    ensures step { IsStep (input_due (input_of which)) (bay_plans_named (moving asked.now))
        (S.Sink.view shelf.old) (S.Sink.view shelf.new) result }
    ensures within { IfOk result (λ bytes. length bytes ≤ file_limit) }
{
    match read_all(alloc, shelf, asked.name_of(which), FILE_LIMIT) {
        Ok(bytes) => Ok(bytes),
        Err(ReadAll::ReadFault) => Err(Stop::Refused(Refusal::ReadFault(input_of(which)))),
        Err(ReadAll::TooLarge) => Err(Stop::Refused(Refusal::TooLarge(input_of(which)))),
        Err(ReadAll::OutOfMemory) => Err(Stop::OutOfMemory),
    }
}

/// The plan in a bay plan's file.
fn read_one<S: Shelf>(
    alloc: Global,
    asked: &MovesAsked<'_>,
    which: Which,
    shelf: &mut S,
) -> Result<BayPlan, Stop>
    ensures { IsStep (bay_plan_due which) (bay_plans_named (moving asked.now))
        (S.Sink.view shelf.old) (S.Sink.view shelf.new) result }
{
    let bytes = read_bay_plan_input(alloc, asked, which, shelf)?;
    match read_bay_plan(alloc, bytes.as_slice(), which) {
        Ok(plan) => Ok(plan),
        Err(BayPlanError::Fault(fault)) => Err(Stop::Refused(Refusal::BadBayPlan(which, fault))),
        Err(BayPlanError::OutOfMemory) => Err(Stop::OutOfMemory),
    }
}

/// Both bay plans; that for the departure is opened once the other is read.
pub fn read_bay_plans<S: Shelf>(
    alloc: Global,
    asked: &MovesAsked<'_>,
    shelf: &mut S,
) -> Result<BayPlans, Stop>
    ensures { IsStep bay_plans_due (bay_plans_named (moving asked.now))
        (S.Sink.view shelf.old) (S.Sink.view shelf.new) result }
{
    let arrival = read_one(alloc, asked, Which::Arrival, shelf)?;
    let departure = read_one(alloc, asked, Which::Departure, shelf)?;
    Ok(BayPlans { arrival, departure })
}
