//! The command that shows the motion of a plan.
ghost use Rattle.std.specs.Prelude.{◌≤◌, IfOk, IsSome};
ghost use Rattle.qc_run.specs.Inputs.{names_of};
ghost use Rattle.qc_run.specs.Account.{Account, IsReaderRun};
ghost use Rattle.qc_judge_commands.specs.Account.{show_reader};
ghost use Rattle.qc_judge_commands.specs.Reports.{CanBeShown};

use crate::answer::{Showing, Shown};
use crate::shown::report;
use qc_io::{Shelf, Sink};
use qc_model::direction_of;
use qc_motion::Track;
use qc_num::OutOfMemory;
use qc_run::{Ended, Inputs, Job, Stop, broken_of, read_job, report_stop};
use std::alloc::Global;

/// Reads the ship file, the stowage list and the plan's file and judges the plan; where it holds its
/// motion is to be printed.
fn judge<S: Shelf>(alloc: Global, inputs: &Inputs<'_>, shelf: &mut S) -> Result<Showing, Stop>
    requires stow { IsSome (names_of inputs.now).stow }
    requires plan { IsSome (names_of inputs.now).plan }
    ensures serves { Account show_reader (names_of inputs.now)
        (S.Sink.view shelf.old) (S.Sink.view shelf.new) result }
    ensures ready { IfOk result CanBeShown }
{
    let Job { inst, sched } = match read_job(alloc, inputs, shelf) {
        Ok(job) => job,
        Err(stop) => return Err(stop),
    };
    let direction = match direction_of(&inst, &sched) {
        Ok(direction) => direction,
        Err(broken) => return Ok(Showing::Broken(broken_of(&inst, broken))),
    };
    match Track::new(alloc, inst.tasks().len() as u16) {
        Ok(track) => Ok(Showing::Shown(Shown {
            inst,
            sched,
            track,
            direction,
        })),
        Err(OutOfMemory) => Err(Stop::OutOfMemory),
    }
}

/// Shows the motion of a plan: judges it, and prints what each crane does.
pub fn show<S: Shelf, K: Sink>(
    alloc: Global,
    inputs: &Inputs<'_>,
    shelf: &mut S,
    out: &mut K,
) -> Ended
    requires stow { IsSome (names_of inputs.now).stow }
    requires plan { IsSome (names_of inputs.now).plan }
    ensures account { IsReaderRun show_reader (names_of inputs.now)
        (S.Sink.view shelf.old) (S.Sink.view shelf.new) (K.Sink.view out.old) (K.Sink.view out.new) result.status }
    ensures reads_never_fall { (S.Sink.view shelf.old).read_faults ≤ (S.Sink.view shelf.new).read_faults }
{
    match judge(alloc, inputs, shelf) {
        Ok(answer) => report(answer, out),
        Err(stop) => report_stop(stop, out),
    }
}
