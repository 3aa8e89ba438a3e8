//! The command that judges a log of reported crane places.
ghost use Rattle.std.specs.Prelude.{◌≡◌, ◌<◌, ◌≤◌, IsSome, length};
ghost use Rattle.qc_run.specs.Inputs.{names_of};
ghost use Rattle.qc_run.specs.Account.{Account, IsReaderRun};
ghost use Rattle.qc_log_commands.specs.WatchAccount.{TellsWatching, watch_reader};
ghost use Rattle.qc_log_commands.specs.WatchHeld.{TellsNear, crane_name};

use crate::watch_report::report;
use crate::watching::{BreachReport, Watching};
use qc_io::{Shelf, Sink};
use qc_num::Text;
use qc_run::{Ended, Inputs, Stop, Watched, read_watched, report_stop};
use qc_ship::Ship;
use qc_watch::{Breach, first_breach};
use std::alloc::Global;

/// The name of a crane, counted from 0.
fn crane_name(ship: &Ship, crane: u16) -> Text<12>
    requires { crane < length ship.now.cranes }
    ensures { result ≡ crane_name ship.now crane }
{
    Text::of(ship.cranes()[crane as usize].name.as_bytes())
}

/// What is told of a breach.
fn near_of(ship: &Ship, breach: Breach) -> BreachReport
    requires first { breach.first < length ship.now.cranes }
    requires second { breach.second < length ship.now.cranes }
    ensures { TellsNear ship.now breach result }
{
    BreachReport {
        at: breach.at,
        first: crane_name(ship, breach.first),
        second: crane_name(ship, breach.second),
    }
}

/// What the reports of a log come to.
fn judged(read: &Watched) -> Watching
    requires { length read.now.reports ≡ length read.now.ship.cranes }
    ensures { TellsWatching read.now result }
{
    match first_breach(&read.ship, &read.reports) {
        Some(breach) => Watching::Breach(near_of(&read.ship, breach)),
        None => Watching::Safe(read.reports.count()),
    }
}

/// Reads the ship file and the log, and judges the log.
fn judge<S: Shelf>(alloc: Global, inputs: &Inputs<'_>, shelf: &mut S) -> Result<Watching, Stop>
    requires { IsSome (names_of inputs.now).log }
    ensures { Account watch_reader (names_of inputs.now)
        (S.Sink.view shelf.old) (S.Sink.view shelf.new) result }
{
    match read_watched(alloc, inputs, shelf) {
        Ok(read) => Ok(judged(&read)),
        Err(stop) => Err(stop),
    }
}

/// Judges a log of reported crane places: reads the ship file and the log, and prints whether any two cranes
/// came nearer than their margin, and which and when first.
pub fn watch<S: Shelf, K: Sink>(
    alloc: Global,
    inputs: &Inputs<'_>,
    shelf: &mut S,
    out: &mut K,
) -> Ended
    requires { IsSome (names_of inputs.now).log }
    ensures account { IsReaderRun watch_reader (names_of inputs.now)
        (S.Sink.view shelf.old) (S.Sink.view shelf.new) (K.Sink.view out.old) (K.Sink.view out.new) result.status }
    ensures reads_never_fall { (S.Sink.view shelf.old).read_faults ≤ (S.Sink.view shelf.new).read_faults }
{
    match judge(alloc, inputs, shelf) {
        Ok(answer) => report(answer, out),
        Err(stop) => report_stop(stop, out),
    }
}
