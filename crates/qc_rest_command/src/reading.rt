//! A plan, and what happened by the log of its work.
ghost use Rattle.std.specs.Prelude.{IsSome};
ghost use Rattle.qc_run.specs.Inputs.{names_of};
ghost use Rattle.qc_rest_command.specs.Read.{IsReadingOf};

use crate::answer::Worked;
use qc_dispatch::{DispatchError, follow_log};
use qc_io::Shelf;
use qc_run::{Broken, Input, Inputs, LogFault, Refusal, Stop, broken_of, broken_rule, read_input};
use qc_sheet_command::read_load;
use std::alloc::Global;

/// What the files come to that are read.
#[derive(Drop)]
pub(crate) enum Reading {
    /// The plan breaks a rule other than that of one way.
    Broken(Broken),
    /// The plan is feasible, and its order was followed by the log.
    Worked(Worked),
}

/// Reads the ship file, the stowage list and the plan's file and judges the plan; only where it is feasible the log is
/// opened, read whole and followed.
pub(crate) fn read_worked<S: Shelf>(
    alloc: Global,
    inputs: &Inputs<'_>,
    shelf: &mut S,
) -> Result<Reading, Stop>
    requires stow { IsSome (names_of inputs.now).stow }
    requires plan { IsSome (names_of inputs.now).plan }
    requires log { IsSome (names_of inputs.now).log }
    ensures { IsReadingOf (names_of inputs.now)
        (S.Sink.view shelf.old) (S.Sink.view shelf.new) result }
{
    let load = match read_load(alloc, inputs, shelf) {
        Ok(load) => load,
        Err(stop) => return Err(stop),
    };
    let inst = &load.cargo.inst;
    if let Some(broken) = broken_rule(inst, &load.sched) {
        return Ok(Reading::Broken(broken_of(inst, broken)));
    }
    let log = match read_input(alloc, inputs, Input::Log, shelf) {
        Ok(log) => log,
        Err(stop) => return Err(stop),
    };
    match follow_log(alloc, inst, &load.sched, log.as_slice()) {
        Ok(followed) => Ok(Reading::Worked(Worked { load, followed })),
        Err(DispatchError::Fault(fault)) => {
            Err(Stop::Refused(Refusal::BadLog(LogFault::Dispatch(fault))))
        }
        Err(DispatchError::OutOfMemory) => Err(Stop::OutOfMemory),
    }
}
