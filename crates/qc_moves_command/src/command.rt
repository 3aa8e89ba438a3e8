//! The command that lists moves.
ghost use Rattle.std.specs.Prelude.{◌≡◌, ◌⊎◌, ◌≤◌, None, IfOk, OnErr, OnOk};
ghost use Rattle.qc_changes.specs.ListText.{list_text};
ghost use Rattle.qc_io.specs.Outside.{with_file};
ghost use Rattle.qc_io.specs.Writes.{Counts};
ghost use Rattle.qc_run.specs.Inputs.{moving};
ghost use Rattle.qc_moves_command.specs.Account.{IsBetween, IsListing, IsMovesRun, Writes};
ghost use Rattle.qc_moves_command.specs.Figures.{figures_of};
ghost use Rattle.qc_moves_command.specs.Promises.{MovesPromises};
ghost use Rattle.qc_moves_command.specs.Ready.{IsReady};

use crate::answer::{Figures, MovesAnswer};
use crate::report::report;
use qc_changes::{Changes, Class, changes, write_list};
use qc_io::{Shelf, Sink, WriteFault};
use qc_num::OutOfMemory;
use qc_run::{BayPlans, Ended, MovesAsked, Stop, read_bay_plans, report_stop};
use std::alloc::Global;

/// What is told of the moves between two plans.
fn figures_of(plans: &BayPlans, changes: &Changes) -> Figures
    ensures { result ≡ figures_of plans.now changes.now }
{
    let (arrival, departure) = (&plans.arrival, &plans.departure);
    Figures {
        moves: changes.rows().len() as u64,
        discharged: changes.count(Class::Discharged) as u64,
        loaded: changes.count(Class::Loaded) as u64,
        restowed: changes.count(Class::Restowed) as u64,
        lifted: changes.count(Class::Lifted) as u64,
        staying: changes.count(Class::Staying) as u64,
        unnamed: u64::from(departure.unnamed()),
        bundled: u64::from(arrival.bundled()) + u64::from(departure.bundled()),
        other: u64::from(arrival.other()) + u64::from(departure.other()),
    }
}

/// Makes the list's file.
fn store_list<S: Shelf>(changes: &Changes, name: &str, shelf: &mut S) -> Result<(), WriteFault>
    ensures ok { OnOk result ((S.Sink.view shelf.new).files
        ≡ with_file (S.Sink.view shelf.old).files name.now (list_text changes.now.rows)) }
    ensures err { OnErr result (((S.Sink.view shelf.new).files ≡ (S.Sink.view shelf.old).files)
        ⊎ ((S.Sink.view shelf.new).files
        ≡ with_file (S.Sink.view shelf.old).files name.now (list_text changes.now.rows))) }
    ensures unmade { OnOk result ((S.Sink.view shelf.new).made ≡ None) }
    ensures counts { Counts (S.Sink.view shelf.old).faults (S.Sink.view shelf.new).faults result }
    ensures read_faults { (S.Sink.view shelf.new).read_faults ≡ (S.Sink.view shelf.old).read_faults }
{
    shelf.create(name)?;
    write_list(changes.rows(), shelf)?;
    shelf.finish()?;
    Ok(())
}

/// What is moved between two plans, and what is told of it.
#[derive(Drop)]
struct Found {
    changes: Changes,
    told: Figures,
}

/// What is moved between two plans, and what is told of it.
fn found_between(alloc: Global, plans: &BayPlans) -> Result<Found, OutOfMemory>
    ensures between { IfOk result (λ found. IsBetween plans.now found.changes) }
    ensures told { IfOk result (λ found. found.told ≡ figures_of plans.now found.changes) }
{
    let changes = changes(alloc, &plans.arrival, &plans.departure)?;
    let told = figures_of(plans, &changes);
    Ok(Found { changes, told })
}

/// Writes the list, and answers what is told of it.
fn store_found<S: Shelf>(asked: &MovesAsked<'_>, found: &Found, shelf: &mut S) -> MovesAnswer
    requires { IsReady (moving asked.now) (S.Sink.view shelf.old) found.now }
    ensures writes { Writes (moving asked.now) (S.Sink.view shelf.old) (S.Sink.view shelf.new) result }
    ensures read_faults { (S.Sink.view shelf.new).read_faults ≡ (S.Sink.view shelf.old).read_faults }
    ensures never_falls { (S.Sink.view shelf.old).faults ≤ (S.Sink.view shelf.new).faults }
{
    match store_list(&found.changes, asked.stow, shelf) {
        Ok(()) => MovesAnswer::Listed(found.told),
        Err(WriteFault) => MovesAnswer::WriteFault,
    }
}

/// Reads both plans, and writes the list of the moves that lead from the one to the other. All memory is taken before
/// anything is written.
fn serve<S: Shelf>(
    alloc: Global,
    asked: &MovesAsked<'_>,
    shelf: &mut S,
) -> Result<MovesAnswer, Stop>
    ensures serves { IsListing (moving asked.now) (S.Sink.view shelf.old) (S.Sink.view shelf.new) result }
    ensures never_falls { (S.Sink.view shelf.old).faults ≤ (S.Sink.view shelf.new).faults }
    ensures reads_never_fall { (S.Sink.view shelf.old).read_faults ≤ (S.Sink.view shelf.new).read_faults }
{
    let plans = read_bay_plans(alloc, asked, shelf)?;
    let found = found_between(alloc, &plans);
    drop(plans);
    let found = found?;
    let answer = store_found(asked, &found, shelf);
    drop(found);
    Ok(answer)
}

/// Lists the moves that lead from one bay plan to another, in the file of a stowage list, and reports to `out`.
pub fn list_moves<S: Shelf, K: Sink>(
    alloc: Global,
    asked: &MovesAsked<'_>,
    shelf: &mut S,
    out: &mut K,
) -> Ended
    ensures account { IsMovesRun (moving asked.now) (S.Sink.view shelf.old) (S.Sink.view shelf.new)
        (K.Sink.view out.old) (K.Sink.view out.new) result.status }
    ensures promises { MovesPromises (moving asked.now) (S.Sink.view shelf.old) (S.Sink.view shelf.new)
        (K.Sink.view out.old) (K.Sink.view out.new) result.status }
    ensures never_falls { (S.Sink.view shelf.old).faults ≤ (S.Sink.view shelf.new).faults }
    ensures reads_never_fall { (S.Sink.view shelf.old).read_faults ≤ (S.Sink.view shelf.new).read_faults }
{
    match serve(alloc, asked, shelf) {
        Ok(answer) => report(answer, out),
        Err(stop) => report_stop(stop, out),
    }
}
