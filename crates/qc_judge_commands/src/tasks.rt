//! The command that prints the tasks.
ghost use Rattle.std.specs.Prelude.{◌≤◌, IsSome};
ghost use Rattle.qc_tasks.specs.TasksText.{tasks_text};
ghost use Rattle.qc_run.specs.Inputs.{names_of};
ghost use Rattle.qc_run.specs.Reports.{Prints, PrintsPart, Reports};
ghost use Rattle.qc_run.specs.declared.status.Status.TheVariants as status;
ghost use Rattle.qc_run.specs.Account.{IsReaderRun};
ghost use Rattle.qc_judge_commands.specs.Account.{tasks_reader};

use qc_io::{Shelf, Sink, WriteFault};
use qc_model::Instance;
use qc_run::{Ended, Inputs, Status, read_instance, report_stop};
use qc_tasks::write_tasks;
use std::alloc::Global;

/// Prints the tasks of an instance.
fn report_tasks<K: Sink>(inst: &Instance, out: &mut K) -> Ended
    ensures { Reports (Prints (tasks_text inst.now)) (PrintsPart (tasks_text inst.now)) status.Done
        (K.view out.old) (K.view out.new) result.status }
{
    match write_tasks(inst, out) {
        Ok(()) => Ended::of(Status::Done),
        Err(WriteFault) => Ended::of(Status::WriteFault),
    }
}

/// Reads the ship file and the stowage list, and prints the tasks of their instance.
pub fn list_tasks<S: Shelf, K: Sink>(
    alloc: Global,
    inputs: &Inputs<'_>,
    shelf: &mut S,
    out: &mut K,
) -> Ended
    requires { IsSome (names_of inputs.now).stow }
    ensures account { IsReaderRun tasks_reader (names_of inputs.now)
        (S.Sink.view shelf.old) (S.Sink.view shelf.new) (K.Sink.view out.old) (K.Sink.view out.new) result.status }
    ensures reads_never_fall { (S.Sink.view shelf.old).read_faults ≤ (S.Sink.view shelf.new).read_faults }
{
    match read_instance(alloc, inputs, shelf) {
        Ok(inst) => report_tasks(&inst, out),
        Err(stop) => report_stop(stop, out),
    }
}
