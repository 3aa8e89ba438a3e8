//! A ship, and where its cranes were reported to be.
ghost use Rattle.std.specs.Prelude.{◌≡◌, IfOk, IsSome, length};
ghost use Rattle.qc_run.specs.Inputs.{names_of};
ghost use Rattle.qc_run.specs.Due.{reports_due, watched_due};
ghost use Rattle.qc_run.specs.Steps.{IsStep};

use crate::inputs::{Input, Inputs};
use crate::reading::{read_input, read_ship_file};
use crate::refusal::{LogFault, Refusal, Stop};
use qc_io::Shelf;
use qc_ship::Ship;
use qc_watch::{Reports, WatchError, read_reports};
use std::alloc::Global;

/// A ship and the reports of its cranes.
#[derive(Drop)]
pub struct Watched {
    pub ship: Ship,
    pub reports: Reports,
}

/// The reports of the log.
fn read_log<S: Shelf>(
    alloc: Global,
    inputs: &Inputs<'_>,
    ship: &Ship,
    shelf: &mut S,
) -> Result<Reports, Stop>
    requires { IsSome (names_of inputs.now).log }
    ensures step { IsStep (reports_due ship.now) (names_of inputs.now)
        (S.Sink.view shelf.old) (S.Sink.view shelf.new) result }
    ensures cranes { IfOk result (λ reports. length reports ≡ length ship.now.cranes) }
{
    let bytes = read_input(alloc, inputs, Input::Log, shelf)?;
    match read_reports(alloc, bytes.as_slice(), ship) {
        Ok(reports) => Ok(reports),
        Err(WatchError::Fault(fault)) => {
            Err(Stop::Refused(Refusal::BadLog(LogFault::Watch(fault))))
        }
        Err(WatchError::OutOfMemory) => Err(Stop::OutOfMemory),
    }
}

/// The ship of the ship file and the reports of the log, which is opened once the ship is read.
pub fn read_watched<S: Shelf>(
    alloc: Global,
    inputs: &Inputs<'_>,
    shelf: &mut S,
) -> Result<Watched, Stop>
    requires { IsSome (names_of inputs.now).log }
    ensures step { IsStep watched_due (names_of inputs.now)
        (S.Sink.view shelf.old) (S.Sink.view shelf.new) result }
    ensures cranes { IfOk result (λ read. length read.reports ≡ length read.ship.cranes) }
{
    let ship = read_ship_file(alloc, inputs, shelf)?;
    let reports = read_log(alloc, inputs, &ship, shelf)?;
    Ok(Watched { ship, reports })
}
