//! The command that writes what is left of a plan in the middle of its work.
ghost use Rattle.std.specs.Prelude.{◌≡◌, ◌≤◌, All, IfErr, IfOk, IsSome, List, OnErr, ℕ};
ghost use Rattle.qc_dispatch.specs.Following.{journal_of};
ghost use Rattle.qc_dispatch.specs.Journal.{IsFollowed};
ghost use Rattle.qc_model.specs.declared.schedule.Slot.{Slot};
ghost use Rattle.qc_model.specs.Instance.{InstanceView};
ghost use Rattle.qc_model.specs.Judge.{IsJudgeable};
ghost use Rattle.qc_rest.specs.Whole.{IsNoRest, IsRestBy};
ghost use Rattle.qc_run.specs.Inputs.{names_of, replanning};
ghost use Rattle.qc_rest_command.specs.declared.answer.Renewing.TheVariants as renewing;
ghost use Rattle.qc_rest_command.specs.Account.{IsReady, IsRenewing, IsRestRun, Writes};
ghost use Rattle.qc_rest_command.specs.Prepared.{IsPrepared, IsUnprepared};
ghost use Rattle.qc_rest_command.specs.Promises.{RestPromises};
ghost use Rattle.qc_rest_command.specs.Texts.{CanBeTold, IsInside};
ghost use Rattle.qc_rest_command.specs.Worked.{IsWorked};

use crate::answer::{Renewed, Renewing, Worked};
use crate::reading::{Reading, read_worked};
use crate::report::report;
use crate::storing::{store_all, try_names};
use crate::telling::{far_told, late_told, over_told};
use qc_io::{Shelf, Sink, WriteFault};
use qc_num::{Bytes, OutOfMemory};
use qc_rest::{Rest, RestError};
use qc_rest_files::ship_text;
use qc_run::{Ended, NoRest, RestAsked, Stop, report_stop};
use std::alloc::Global;

/// What is left, and the text of its ship file.
#[derive(Drop)]
pub(crate) struct Prepared {
    told: Renewed,
    text: Bytes,
}

/// Why nothing is written.
#[derive(Drop)]
pub(crate) enum Unprepared {
    NoRest(NoRest),
    OutOfMemory,
}

/// What is told of an error.
fn no_rest_of(alloc: Global, worked: &Worked, error: RestError) -> Unprepared
    requires followed { (inst : InstanceView) × ((plan : List Slot) × ((text : List ℕ)
        × IsFollowed inst plan text (journal_of worked.now.followed))) }
    requires none { IsNoRest (journal_of worked.now.followed) error }
    ensures { IsUnprepared worked.now result }
{
    let dispatch = &worked.followed.dispatch;
    match error {
        RestError::Over(task) => Unprepared::NoRest(over_told(alloc, worked, task)),
        RestError::Ready(crane) => Unprepared::NoRest(late_told(alloc, dispatch, crane)),
        RestError::Bay(crane) => Unprepared::NoRest(far_told(alloc, dispatch, crane)),
        RestError::OutOfMemory => Unprepared::OutOfMemory,
    }
}

/// What is left by a log, or why it can't be planned.
fn rest_by(alloc: Global, worked: &Worked) -> Result<Rest, Unprepared>
    requires followed { (text : List ℕ) × IsFollowed worked.now.load.cargo.inst worked.now.load.sched text
        (journal_of worked.now.followed) }
    ensures rest { IfOk result (IsRestBy (journal_of worked.now.followed)) }
    ensures judgeable { IfOk result (λ rest. IsJudgeable rest.instance rest.order) }
    ensures inside { IfOk result (λ rest. All (IsInside worked.now.followed.dispatch.inst) rest.running.items) }
    ensures none { IfErr result (IsUnprepared worked.now) }
{
    let _now = worked.followed.dispatch.now();
    match Rest::of(alloc, &worked.load.sched, &worked.followed) {
        Ok(rest) => Ok(rest),
        Err(error) => Err(no_rest_of(alloc, worked, error)),
    }
}

/// What is left, and the text of its ship file: all memory that the command takes.
fn prepare(alloc: Global, worked: Worked) -> Result<Prepared, Unprepared>
    requires { (text : List ℕ) × IsFollowed worked.load.cargo.inst worked.load.sched text (journal_of worked.followed) }
    ensures prepared { IfOk result (IsPrepared worked) }
    ensures none { IfErr result (IsUnprepared worked) }
{
    let rest = match rest_by(alloc, &worked) {
        Ok(rest) => rest,
        Err(why) => {
            drop(worked);
            return Err(why);
        }
    };
    let told = Renewed { worked, rest };
    match ship_text(alloc, &told.worked.load.cargo.ship, &told.rest.instance) {
        Ok(text) => Ok(Prepared { told, text }),
        Err(OutOfMemory) => {
            drop(told);
            Err(Unprepared::OutOfMemory)
        }
    }
}

/// Writes the three files, once each could be begun.
fn store<S: Shelf>(asked: &RestAsked<'_>, prepared: Prepared, shelf: &mut S) -> Renewing
    requires ready { IsReady (replanning asked.now) (S.Sink.view shelf.old).files prepared.told prepared.text }
    requires judgeable { IsJudgeable prepared.told.rest.instance prepared.told.rest.order }
    requires inside { CanBeTold (renewing.Renewed prepared.told) }
    ensures writes { Writes (replanning asked.now) (S.Sink.view shelf.old) (S.Sink.view shelf.new) result }
    ensures ready { CanBeTold result }
    ensures read_faults { (S.Sink.view shelf.new).read_faults ≡ (S.Sink.view shelf.old).read_faults }
    ensures never_falls { (S.Sink.view shelf.old).faults ≤ (S.Sink.view shelf.new).faults }
{
    let Prepared { told, text } = prepared;
    if try_names(asked, shelf).is_err() {
        drop(text);
        drop(told);
        return Renewing::WriteFault;
    }
    let stored = store_all(asked, &told, text.as_slice(), shelf);
    drop(text);
    match stored {
        Ok(()) => Renewing::Renewed(told),
        Err(WriteFault) => {
            drop(told);
            Renewing::WriteFault
        }
    }
}

/// Writes what is left of the work, where it can be planned.
fn renew<S: Shelf>(
    alloc: Global,
    asked: &RestAsked<'_>,
    worked: Worked,
    shelf: &mut S,
) -> Result<Renewing, OutOfMemory>
    requires { IsWorked (replanning asked.now).inputs (S.Sink.view shelf.old).files worked }
    ensures writes { IfOk result (Writes (replanning asked.now) (S.Sink.view shelf.old) (S.Sink.view shelf.new)) }
    ensures ready { IfOk result CanBeTold }
    ensures unwritten { OnErr result (S.Sink.view shelf.new ≡ S.Sink.view shelf.old) }
    ensures read_faults { (S.Sink.view shelf.new).read_faults ≡ (S.Sink.view shelf.old).read_faults }
    ensures never_falls { (S.Sink.view shelf.old).faults ≤ (S.Sink.view shelf.new).faults }
{
    match prepare(alloc, worked) {
        Ok(prepared) => Ok(store(asked, prepared, shelf)),
        Err(Unprepared::NoRest(told)) => Ok(Renewing::NoRest(told)),
        Err(Unprepared::OutOfMemory) => Err(OutOfMemory),
    }
}

/// Reads the plan and follows the log of its work, and writes what is left. All memory is taken before anything is
/// written.
fn serve<S: Shelf>(alloc: Global, asked: &RestAsked<'_>, shelf: &mut S) -> Result<Renewing, Stop>
    requires stow { IsSome (names_of asked.now.inputs).stow }
    requires plan { IsSome (names_of asked.now.inputs).plan }
    requires log { IsSome (names_of asked.now.inputs).log }
    ensures serves { IsRenewing (replanning asked.now) (S.Sink.view shelf.old) (S.Sink.view shelf.new) result }
    ensures ready { IfOk result CanBeTold }
    ensures never_falls { (S.Sink.view shelf.old).faults ≤ (S.Sink.view shelf.new).faults }
    ensures reads_never_fall { (S.Sink.view shelf.old).read_faults ≤ (S.Sink.view shelf.new).read_faults }
{
    match read_worked(alloc, &asked.inputs, shelf) {
        Ok(Reading::Broken(told)) => Ok(Renewing::Broken(told)),
        Ok(Reading::Worked(worked)) => match renew(alloc, asked, worked, shelf) {
            Ok(answer) => Ok(answer),
            Err(OutOfMemory) => Err(Stop::OutOfMemory),
        },
        Err(stop) => Err(stop),
    }
}

/// Writes what is left of a plan in the middle of its work, from the last tick of its log on: a ship file, a stowage list
/// and a plan by which the old order goes on; and reports to `out`.
pub fn write_rest<S: Shelf, K: Sink>(
    alloc: Global,
    asked: &RestAsked<'_>,
    shelf: &mut S,
    out: &mut K,
) -> Ended
    requires stow { IsSome (names_of asked.now.inputs).stow }
    requires plan { IsSome (names_of asked.now.inputs).plan }
    requires log { IsSome (names_of asked.now.inputs).log }
    ensures account { IsRestRun (replanning asked.now) (S.Sink.view shelf.old) (S.Sink.view shelf.new)
        (K.Sink.view out.old) (K.Sink.view out.new) result.status }
    ensures promises { RestPromises (replanning asked.now) (S.Sink.view shelf.old) (S.Sink.view shelf.new)
        (K.Sink.view out.old) (K.Sink.view out.new) result.status }
    ensures never_falls { (S.Sink.view shelf.old).faults ≤ (S.Sink.view shelf.new).faults }
    ensures reads_never_fall { (S.Sink.view shelf.old).read_faults ≤ (S.Sink.view shelf.new).read_faults }
{
    match serve(alloc, asked, shelf) {
        Ok(answer) => report(answer, out),
        Err(stop) => report_stop(stop, out),
    }
}
