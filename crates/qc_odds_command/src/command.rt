//! The command that works a plan many times.
ghost use Rattle.std.specs.Prelude.{◌≤◌, IfOk, IsSome};
ghost use Rattle.qc_run.specs.Inputs.{names_of, simulating};
ghost use Rattle.qc_odds_command.specs.Account.{IsOddsAccount, IsOddsRun};
ghost use Rattle.qc_odds_command.specs.Promises.{OddsPromises};
ghost use Rattle.qc_odds_command.specs.Ready.{CanBeTold};

use crate::answer::{Forecast, Forecasting};
use crate::report::report;
use qc_io::{Shelf, Sink};
use qc_num::OutOfMemory;
use qc_odds::simulate;
use qc_run::{
    Ended, OddsAsked, Stop, broken_of, broken_rule, read_job, read_past_file, report_stop,
};
use std::alloc::Global;

/// Reads the ship file, the stowage list and the plan's file and judges the plan; only where it is feasible the file of
/// past tasks is read and the plan is worked.
fn forecast<S: Shelf>(
    alloc: Global,
    asked: &OddsAsked<'_>,
    shelf: &mut S,
) -> Result<Forecasting, Stop>
    requires stow { IsSome (names_of asked.now.inputs).stow }
    requires plan { IsSome (names_of asked.now.inputs).plan }
    requires past { IsSome (names_of asked.now.inputs).past }
    requires some { 1 ≤ asked.now.runs }
    requires few { asked.now.runs ≤ 10000 }
    ensures serves { IsOddsAccount (simulating asked.now) (S.Sink.view shelf.old) (S.Sink.view shelf.new) result }
    ensures ready { IfOk result CanBeTold }
{
    let job = match read_job(alloc, &asked.inputs, shelf) {
        Ok(job) => job,
        Err(stop) => return Err(stop),
    };
    if let Some(broken) = broken_rule(&job.inst, &job.sched) {
        return Ok(Forecasting::Broken(broken_of(&job.inst, broken)));
    }
    let past = match read_past_file(alloc, &asked.inputs, shelf) {
        Ok(past) => past,
        Err(stop) => return Err(stop),
    };
    match simulate(
        alloc, &job.inst, &job.sched, &past, asked.seed, asked.runs, shelf,
    ) {
        Ok(odds) => Ok(Forecasting::Forecast(Forecast {
            job,
            odds,
            by_tick: asked.by_tick,
        })),
        Err(OutOfMemory) => Err(Stop::OutOfMemory),
    }
}

/// Tells how likely it is that a ship is done in time: reads the ship file, the stowage list, the plan's file and that of
/// past tasks, works the plan many times, and prints what the runs come to.
pub fn odds<S: Shelf, K: Sink>(
    alloc: Global,
    asked: &OddsAsked<'_>,
    shelf: &mut S,
    out: &mut K,
) -> Ended
    requires stow { IsSome (names_of asked.now.inputs).stow }
    requires plan { IsSome (names_of asked.now.inputs).plan }
    requires past { IsSome (names_of asked.now.inputs).past }
    requires some { 1 ≤ asked.now.runs }
    requires few { asked.now.runs ≤ 10000 }
    ensures account { IsOddsRun (simulating asked.now) (S.Sink.view shelf.old) (S.Sink.view shelf.new)
        (K.Sink.view out.old) (K.Sink.view out.new) result.status }
    ensures promises { OddsPromises (simulating asked.now) (S.Sink.view shelf.old) (S.Sink.view shelf.new)
        (K.Sink.view out.old) (K.Sink.view out.new) result.status }
    ensures reads_never_fall { (S.Sink.view shelf.old).read_faults ≤ (S.Sink.view shelf.new).read_faults }
{
    match forecast(alloc, asked, shelf) {
        Ok(answer) => report(answer, out),
        Err(stop) => report_stop(stop, out),
    }
}
