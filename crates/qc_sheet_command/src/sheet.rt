//! The command that prints the work sheet of a plan.
ghost use Rattle.std.specs.Prelude.{◌≤◌, IfOk, IsSome};
ghost use Rattle.qc_run.specs.Inputs.{names_of};
ghost use Rattle.qc_run.specs.Account.{Account, IsReaderRun};
ghost use Rattle.qc_sheet_command.specs.Account.{sheet_reader};
ghost use Rattle.qc_sheet_command.specs.Listed.{CanBeListed};

use crate::answer::{Listed, Listing};
use crate::load::read_load;
use crate::report::report;
use qc_io::{Shelf, Sink};
use qc_num::OutOfMemory;
use qc_run::{Ended, Inputs, Stop, broken_of, broken_rule, report_stop};
use qc_sheet::Sheet;
use std::alloc::Global;

/// Reads the ship file, the stowage list and the plan's file and judges the plan; where it is feasible
/// its work sheet is to be printed.
fn list<S: Shelf>(alloc: Global, inputs: &Inputs<'_>, shelf: &mut S) -> Result<Listing, Stop>
    requires stow { IsSome (names_of inputs.now).stow }
    requires plan { IsSome (names_of inputs.now).plan }
    ensures serves { Account sheet_reader (names_of inputs.now)
        (S.Sink.view shelf.old) (S.Sink.view shelf.new) result }
    ensures ready { IfOk result CanBeListed }
{
    let load = match read_load(alloc, inputs, shelf) {
        Ok(load) => load,
        Err(stop) => return Err(stop),
    };
    let cargo = &load.cargo;
    if let Some(broken) = broken_rule(&cargo.inst, &load.sched) {
        return Ok(Listing::Broken(broken_of(&cargo.inst, broken)));
    }
    match Sheet::new(alloc, &cargo.inst, &cargo.ship, &cargo.moves) {
        Ok(sheet) => Ok(Listing::Listed(Listed { load, sheet })),
        Err(OutOfMemory) => Err(Stop::OutOfMemory),
    }
}

/// Prints the work sheet of a plan: for each crane its tasks, and for each task its containers in the
/// order in which they are lifted off or set down, with their ticks.
pub fn print_sheet<S: Shelf, K: Sink>(
    alloc: Global,
    inputs: &Inputs<'_>,
    shelf: &mut S,
    out: &mut K,
) -> Ended
    requires stow { IsSome (names_of inputs.now).stow }
    requires plan { IsSome (names_of inputs.now).plan }
    ensures account { IsReaderRun sheet_reader (names_of inputs.now)
        (S.Sink.view shelf.old) (S.Sink.view shelf.new) (K.Sink.view out.old) (K.Sink.view out.new) result.status }
    ensures reads_never_fall { (S.Sink.view shelf.old).read_faults ≤ (S.Sink.view shelf.new).read_faults }
{
    match list(alloc, inputs, shelf) {
        Ok(answer) => report(answer, out),
        Err(stop) => report_stop(stop, out),
    }
}
