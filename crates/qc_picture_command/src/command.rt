//! The command that prints the figures of each crane of a plan, or its drawing.
ghost use Rattle.std.specs.Prelude.{◌≤◌, IsSome};
ghost use Rattle.qc_run.specs.Account.{Account, IsReaderRun};
ghost use Rattle.qc_run.specs.Inputs.{names_of};
ghost use Rattle.qc_picture_command.specs.Account.{printer};

use crate::answer::{Motion, Print, Printed};
use crate::motion::read_motion;
use crate::report::{report, text_of};
use qc_io::{Shelf, Sink};
use qc_num::OutOfMemory;
use qc_run::{Ended, Inputs, Stop, report_stop};
use std::alloc::Global;

/// Reads and judges a plan, and tells of it where it is feasible.
fn tell<S: Shelf>(
    alloc: Global,
    what: Print,
    inputs: &Inputs<'_>,
    shelf: &mut S,
) -> Result<Printed, Stop>
    requires stow { IsSome (names_of inputs.now).stow }
    requires plan { IsSome (names_of inputs.now).plan }
    ensures { Account (printer what) (names_of inputs.now)
        (S.Sink.view shelf.old) (S.Sink.view shelf.new) result }
{
    match read_motion(alloc, inputs, shelf) {
        Ok(Motion::Planned(plan)) => match text_of(alloc, what, &plan) {
            Ok(text) => Ok(Printed::Text(text)),
            Err(OutOfMemory) => Err(Stop::OutOfMemory),
        },
        Ok(Motion::Broken(told)) => Ok(Printed::Broken(told)),
        Err(stop) => Err(stop),
    }
}

/// Prints what is asked of a plan.
pub fn print_plan<S: Shelf, K: Sink>(
    alloc: Global,
    what: Print,
    inputs: &Inputs<'_>,
    shelf: &mut S,
    out: &mut K,
) -> Ended
    requires stow { IsSome (names_of inputs.now).stow }
    requires plan { IsSome (names_of inputs.now).plan }
    ensures account { IsReaderRun (printer what) (names_of inputs.now)
        (S.Sink.view shelf.old) (S.Sink.view shelf.new) (K.Sink.view out.old) (K.Sink.view out.new) result.status }
    ensures reads_never_fall { (S.Sink.view shelf.old).read_faults ≤ (S.Sink.view shelf.new).read_faults }
{
    match tell(alloc, what, inputs, shelf) {
        Ok(answer) => report(answer, out),
        Err(stop) => report_stop(stop, out),
    }
}
