//! The command that follows the order of a plan by a log.
ghost use Rattle.std.specs.Prelude.{◌≤◌, IsSome};
ghost use Rattle.qc_run.specs.Inputs.{names_of};
ghost use Rattle.qc_log_commands.specs.DispatchAccount.{IsDispatchAccount, IsDispatchRun};

use crate::dispatch_report::report;
use crate::dispatching::{Dispatched, Dispatching};
use qc_dispatch::{DispatchError, follow_log};
use qc_io::{Shelf, Sink};
use qc_run::{
    Ended, Input, Inputs, LogFault, Refusal, Stop, broken_of, broken_rule, read_input, read_job,
    report_stop,
};
use std::alloc::Global;

/// Reads the ship file, the stowage list and the plan's file and judges the plan; only where it is feasible the log
/// is opened, read whole and followed.
fn follow<S: Shelf>(alloc: Global, inputs: &Inputs<'_>, shelf: &mut S) -> Result<Dispatching, Stop>
    requires stow { IsSome (names_of inputs.now).stow }
    requires plan { IsSome (names_of inputs.now).plan }
    requires log { IsSome (names_of inputs.now).log }
    ensures { IsDispatchAccount (names_of inputs.now)
        (S.Sink.view shelf.old) (S.Sink.view shelf.new) result }
{
    let job = match read_job(alloc, inputs, shelf) {
        Ok(job) => job,
        Err(stop) => return Err(stop),
    };
    if let Some(broken) = broken_rule(&job.inst, &job.sched) {
        return Ok(Dispatching::Broken(broken_of(&job.inst, broken)));
    }
    let log = match read_input(alloc, inputs, Input::Log, shelf) {
        Ok(log) => log,
        Err(stop) => return Err(stop),
    };
    match follow_log(alloc, &job.inst, &job.sched, log.as_slice()) {
        Ok(followed) => Ok(Dispatching::Dispatched(Dispatched { job, followed })),
        Err(DispatchError::Fault(fault)) => {
            Err(Stop::Refused(Refusal::BadLog(LogFault::Dispatch(fault))))
        }
        Err(DispatchError::OutOfMemory) => Err(Stop::OutOfMemory),
    }
}

/// Follows the order of a plan by a log of what happens: reads the ship file, the stowage list, the plan's file and
/// the log, and prints which task starts and ends when.
pub fn dispatch<S: Shelf, K: Sink>(
    alloc: Global,
    inputs: &Inputs<'_>,
    shelf: &mut S,
    out: &mut K,
) -> Ended
    requires stow { IsSome (names_of inputs.now).stow }
    requires plan { IsSome (names_of inputs.now).plan }
    requires log { IsSome (names_of inputs.now).log }
    ensures account { IsDispatchRun (names_of inputs.now) (S.Sink.view shelf.old) (S.Sink.view shelf.new)
        (K.Sink.view out.old) (K.Sink.view out.new) result.status }
    ensures reads_never_fall { (S.Sink.view shelf.old).read_faults ≤ (S.Sink.view shelf.new).read_faults }
{
    match follow(alloc, inputs, shelf) {
        Ok(answer) => report(alloc, answer, out),
        Err(stop) => report_stop(stop, out),
    }
}
