//! The report of what is left of a plan.
ghost use Rattle.std.specs.Prelude.{◌≡◌, ◌++◌, All};
ghost use Rattle.std.specs.List.{flat_map};
ghost use Rattle.qc_io.specs.Writes.{Writes};
ghost use Rattle.qc_run.specs.Reports.{Prints, PrintsPart, Reports};
ghost use Rattle.qc_run.specs.declared.status.Status.TheVariants as status;
ghost use Rattle.qc_rest_command.specs.Texts.{CanBeTold, IsInside, crane_line, end_text, now_text, renewed_text, renewing_status, renewing_text, running_line};

use crate::answer::{Renewed, Renewing};
use qc_io::{Sink, WriteFault, put_all};
use qc_model::{Crane, Instance};
use qc_num::Text;
use qc_rest::StillRuns;
use qc_run::{Ended, Status, report_broken, report_no_rest, report_text};

/// The line of a task that runs.
fn running_line(inst: &Instance, still: StillRuns) -> Text<64>
    requires { IsInside inst.now still }
    ensures { result ≡ running_line inst.now still }
{
    let mut line = Text::of(b"running ");
    line.push(inst.task(still.task).text().as_bytes());
    line.push(b" ");
    line.push(inst.crane(still.crane).name.as_bytes());
    line.push(b" ");
    line.push_number(still.ticks);
    line.push(b"\n");
    line
}

/// The line of a crane of what is left.
fn crane_line(crane: &Crane) -> Text<64>
    ensures { result ≡ crane_line crane.now }
{
    let mut line = Text::of(b"crane ");
    line.push(crane.name.as_bytes());
    line.push(b" ");
    line.push_signed(i64::from(crane.bay));
    line.push(b" ");
    line.push_number(crane.ready);
    line.push(b"\n");
    line
}

/// The tick that it is, and how many tasks are left.
fn now_text(told: &Renewed) -> Text<64>
    ensures { result ≡ now_text told.now }
{
    let mut text = Text::of(b"now ");
    text.push_number(told.rest.now);
    text.push(b"\nleft ");
    text.push_number(u64::from(told.rest.instance.task_count()));
    text.push(b"\n");
    text
}

/// When the old order ends, and by how much that is late.
fn end_text(told: &Renewed) -> Text<64>
    ensures { result ≡ end_text told.now }
{
    let mut text = Text::of(b"end ");
    text.push_number(told.rest.end);
    text.push(b"\nlate ");
    text.push_number(told.rest.late);
    text.push(b"\n");
    text
}

/// Writes the lines of tasks that run.
fn put_running<K: Sink>(
    inst: &Instance,
    running: &[StillRuns],
    sink: &mut K,
) -> Result<(), WriteFault>
    requires { All (IsInside inst.now) running.now }
    ensures { Writes (K.view sink.old) (K.view sink.new) (flat_map (running_line inst.now) running.now) result }
{
    for still in running {
        put_all(sink, running_line(inst, *still).as_bytes())?;
    }
    Ok(())
}

/// Writes the lines of the cranes of what is left.
fn put_cranes<K: Sink>(cranes: &[Crane], sink: &mut K) -> Result<(), WriteFault>
    ensures { Writes (K.view sink.old) (K.view sink.new) (flat_map crane_line cranes.now) result }
{
    for crane in cranes {
        put_all(sink, crane_line(crane).as_bytes())?;
    }
    Ok(())
}

/// Writes the lines of cranes, and when the old order ends.
#[tactic(auto, using(qc_io::proofs::WritesLemmas::writes_then, qc_io::proofs::WritesLemmas::writes_cut))]
fn put_ahead<K: Sink>(told: &Renewed, sink: &mut K) -> Result<(), WriteFault>
    ensures { Writes (K.view sink.old) (K.view sink.new)
        (flat_map crane_line told.now.rest.instance.cranes ++ end_text told.now) result }
{
    put_cranes(told.rest.instance.cranes(), sink)?;
    put_all(sink, end_text(told).as_bytes())
}

/// Writes what is told of what is left.
#[tactic(auto, using(qc_io::proofs::WritesLemmas::writes_then, qc_io::proofs::WritesLemmas::writes_cut))]
fn put_renewed<K: Sink>(told: &Renewed, sink: &mut K) -> Result<(), WriteFault>
    requires { All (IsInside told.now.worked.followed.dispatch.inst) told.now.rest.running.items }
    ensures { Writes (K.view sink.old) (K.view sink.new) (renewed_text told.now) result }
{
    put_all(sink, now_text(told).as_bytes())?;
    put_running(
        told.worked.followed.dispatch.instance(),
        told.rest.running.as_slice(),
        sink,
    )?;
    put_ahead(told, sink)
}

/// Prints what is left.
fn report_renewed<K: Sink>(told: &Renewed, out: &mut K) -> Status
    requires { All (IsInside told.now.worked.followed.dispatch.inst) told.now.rest.running.items }
    ensures { Reports (Prints (renewed_text told.now)) (PrintsPart (renewed_text told.now)) status.Done
        (K.view out.old) (K.view out.new) result }
{
    match put_renewed(told, out) {
        Ok(()) => Status::Done,
        Err(WriteFault) => Status::WriteFault,
    }
}

/// Prints what came of a plan in the middle of its work.
pub(crate) fn report<K: Sink>(answer: Renewing, out: &mut K) -> Ended
    requires { CanBeTold answer }
    ensures { Reports (Prints (renewing_text answer)) (PrintsPart (renewing_text answer)) (renewing_status answer)
        (K.view out.old) (K.view out.new) result.status }
{
    match answer {
        Renewing::WriteFault => report_text(Status::WriteFault, b"WriteFault\n", out),
        Renewing::Broken(told) => report_broken(told, out),
        Renewing::NoRest(told) => report_no_rest(told, out),
        Renewing::Renewed(told) => Ended::of(report_renewed(&told, out)),
    }
}
