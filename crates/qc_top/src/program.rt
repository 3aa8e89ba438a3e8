//! One run of the program: from words to a status.
ghost use Rattle.std.specs.Prelude.{◌≡◌, ◌≤◌};
ghost use Rattle.qc_io.specs.Outside.{beside};
ghost use Rattle.qc_run.specs.Inputs.{names_of};
ghost use Rattle.qc_words.specs.Asked.{AreNamed, KeepsLimits, asked_for};
ghost use Rattle.qc_words.specs.Words.{texts};
ghost use Rattle.qc_top.specs.Account.{IsReadBy, IsRun, IsRunOf};
ghost use Rattle.qc_top.specs.Promises.{Promises};

use qc_io::{Shelf, Sink};
use qc_judge_commands::{check_plan, check_tree, list_tasks, show};
use qc_log_commands::{dispatch, watch};
use qc_moves_command::list_moves;
use qc_num::OutOfMemory;
use qc_odds_command::odds;
use qc_picture_command::{Print, print_plan};
use qc_plan_command::plan;
use qc_rest_command::write_rest;
use qc_run::{Ended, Inputs, Refusal, Status, Stop, report_stop, report_text};
use qc_sheet_command::print_sheet;
use qc_trial::make;
use qc_words::{Reader, Request, help_text, request_of, version_text};
use std::alloc::Global;

/// Runs a command that only reads, on its files.
fn read<S: Shelf, K: Sink>(
    alloc: Global,
    reader: Reader,
    inputs: &Inputs<'_>,
    shelf: &mut S,
    out: &mut K,
) -> Ended
    requires { AreNamed reader (names_of inputs.now) }
    ensures account { IsReadBy reader (names_of inputs.now) (S.Sink.view shelf.old) (S.Sink.view shelf.new)
        (K.Sink.view out.old) (K.Sink.view out.new) result.status }
    ensures faults_never_fall { (S.Sink.view shelf.old).faults ≤ (S.Sink.view shelf.new).faults }
    ensures reads_never_fall { (S.Sink.view shelf.old).read_faults ≤ (S.Sink.view shelf.new).read_faults }
{
    match reader {
        Reader::Check => check_plan(alloc, inputs, shelf, out),
        Reader::CheckTree => check_tree(alloc, inputs, shelf, out),
        Reader::Tasks => list_tasks(alloc, inputs, shelf, out),
        Reader::Show => show(alloc, inputs, shelf, out),
        Reader::Sheet => print_sheet(alloc, inputs, shelf, out),
        Reader::Watch => watch(alloc, inputs, shelf, out),
        Reader::Dispatch => dispatch(alloc, inputs, shelf, out),
        Reader::Picture => print_plan(alloc, Print::Picture, inputs, shelf, out),
        Reader::Report => print_plan(alloc, Print::Figures, inputs, shelf, out),
    }
}

/// Runs the command that is asked for.
fn serve<S: Shelf, K: Sink>(
    alloc: Global,
    request: &Request<'_>,
    shelf: &mut S,
    out: &mut K,
) -> Ended
    requires { KeepsLimits (asked_for request.now) }
    ensures account { IsRunOf (asked_for request.now) (S.Sink.view shelf.old) (S.Sink.view shelf.new)
        (K.Sink.view out.old) (K.Sink.view out.new) result.status }
    ensures faults_never_fall { (S.Sink.view shelf.old).faults ≤ (S.Sink.view shelf.new).faults }
    ensures reads_never_fall { (S.Sink.view shelf.old).read_faults ≤ (S.Sink.view shelf.new).read_faults }
{
    match *request {
        Request::Reads(reader, inputs) => read(alloc, reader, &inputs, shelf, out),
        Request::Plans(asked) => plan(alloc, &asked, shelf, out),
        Request::Moves(asked) => list_moves(alloc, &asked, shelf, out),
        Request::Odds(asked) => odds(alloc, &asked, shelf, out),
        Request::Rest(asked) => write_rest(alloc, &asked, shelf, out),
        Request::Make {
            number,
            hatches,
            cranes,
        } => make(alloc, number, hatches, cranes, out),
        Request::Help(of) => report_text(Status::Done, help_text(of), out),
        Request::Version => report_text(Status::Done, version_text(), out),
        Request::Usage => report_stop(Stop::Refused(Refusal::Usage), out),
    }
}

/// Runs the program on the words of a command line, without the program's name, over the files of
/// the shelf. The report goes to `out`.
pub fn run<S: Shelf, K: Sink>(alloc: Global, words: &[String], shelf: &mut S, out: &mut K) -> Ended
    ensures account { IsRun (texts words.now) (S.Sink.view shelf.old) (S.Sink.view shelf.new)
        (K.Sink.view out.old) (K.Sink.view out.new) result.status }

    // What follows from it, each said by itself.
    ensures promises { Promises (texts words.now) (S.Sink.view shelf.old) (S.Sink.view shelf.new)
        (K.Sink.view out.old) (K.Sink.view out.new) result.status }

    ensures beside_stays { beside (K.Sink.view out.new) ≡ beside (K.Sink.view out.old) }
    ensures faults_never_fall { (S.Sink.view shelf.old).faults ≤ (S.Sink.view shelf.new).faults }
    ensures read_faults_never_fall { (S.Sink.view shelf.old).read_faults ≤ (S.Sink.view shelf.new).read_faults }
    ensures print_faults_never_fall { (K.Sink.view out.old).faults ≤ (K.Sink.view out.new).faults }
{
    match request_of(alloc, words) {
        Ok(request) => serve(alloc, &request, shelf, out),
        Err(OutOfMemory) => report_stop(Stop::OutOfMemory, out),
    }
}
