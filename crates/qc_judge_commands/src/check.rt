//! The command that checks a tree.
ghost use Rattle.std.specs.Prelude.{◌≡◌, ◌≤◌, Err, IfOk, IfSome, IsSome};
ghost use Rattle.qc_tree.specs.declared.fault.TreeFault.{TreeFault};
ghost use Rattle.qc_run.specs.declared.refusal.Refusal.TheVariants as refusal;
ghost use Rattle.qc_run.specs.declared.refusal.Stop.TheVariants as stop;
ghost use Rattle.qc_run.specs.Inputs.{names_of};
ghost use Rattle.qc_run.specs.Reports.{Prints, PrintsPart, Reports};
ghost use Rattle.qc_run.specs.Steps.{IsStep};
ghost use Rattle.qc_judge_commands.specs.Account.{IsTreeRun};
ghost use Rattle.qc_judge_commands.specs.Promises.{TreePromises};
ghost use Rattle.qc_judge_commands.specs.Shown.{IsBoundShown, IsNoneShown};
ghost use Rattle.qc_judge_commands.specs.Texts.{bound_status, bound_text};
ghost use Rattle.qc_judge_commands.specs.TreeFile.{shown_due};

use crate::reading::read_tree;
use qc_io::{Shelf, Sink};
use qc_num::{Bound, Text};
use qc_replay::Replayed;
use qc_run::{Ended, Inputs, Status, Stop, read_instance, report_stop, report_text};
use std::alloc::Global;

/// What the tree shows for the instance of the ship file and the stowage list.
fn read_shown<S: Shelf>(alloc: Global, inputs: &Inputs<'_>, shelf: &mut S) -> Result<Replayed, Stop>
    requires stow { IsSome (names_of inputs.now).stow }
    requires tree { IsSome (names_of inputs.now).tree }
    ensures step { IsStep shown_due (names_of inputs.now)
        (S.Sink.view shelf.old) (S.Sink.view shelf.new) result }
    ensures shown { IfOk result (λ read. IfSome (S.Sink.view shelf.old).files (λ held.
        IsBoundShown (names_of inputs.now) held read.bound)) }
    ensures none { (fault : TreeFault) → result ≡ Err (stop.Refused (refusal.BadTree fault))
        → IfSome (S.Sink.view shelf.old).files (λ held. IsNoneShown (names_of inputs.now) held) }
{
    let inst = read_instance(alloc, inputs, shelf)?;
    read_tree(alloc, inputs, &inst, shelf)
}

fn bound_status(bound: Bound) -> Status
    ensures { result ≡ bound_status bound }
{
    match bound {
        Bound::Least(_) => Status::Done,
        Bound::Never => Status::Infeasible,
    }
}

/// What is printed of a tree's value.
fn bound_text(bound: Bound) -> Text<32>
    ensures { result ≡ bound_text bound }
{
    match bound {
        Bound::Least(end) => {
            let mut line = Text::of(b"Bound ");
            line.push_number(end);
            line.push(b"\n");
            line
        }
        Bound::Never => Text::of(b"Infeasible\n"),
    }
}

/// Prints a tree's value.
fn report_bound<K: Sink>(bound: Bound, out: &mut K) -> Ended
    ensures { Reports (Prints (bound_text bound)) (PrintsPart (bound_text bound)) (bound_status bound)
        (K.view out.old) (K.view out.new) result.status }
{
    report_text(bound_status(bound), bound_text(bound).as_bytes(), out)
}

/// Reads the ship file and the stowage list, replays the tree, and prints what it shows.
pub fn check_tree<S: Shelf, K: Sink>(
    alloc: Global,
    inputs: &Inputs<'_>,
    shelf: &mut S,
    out: &mut K,
) -> Ended
    requires stow { IsSome (names_of inputs.now).stow }
    requires tree { IsSome (names_of inputs.now).tree }
    ensures account { IsTreeRun (names_of inputs.now) (S.Sink.view shelf.old) (S.Sink.view shelf.new)
        (K.Sink.view out.old) (K.Sink.view out.new) result.status }
    ensures promises { TreePromises (names_of inputs.now) (S.Sink.view shelf.old) (S.Sink.view shelf.new)
        (K.Sink.view out.old) (K.Sink.view out.new) result.status }
    ensures reads_never_fall { (S.Sink.view shelf.old).read_faults ≤ (S.Sink.view shelf.new).read_faults }
{
    match read_shown(alloc, inputs, shelf) {
        Ok(read) => report_bound(read.bound, out),
        Err(stop) => report_stop(stop, out),
    }
}
