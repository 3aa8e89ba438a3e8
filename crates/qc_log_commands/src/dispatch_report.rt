//! The report of a plan whose order was followed.
ghost use Rattle.std.specs.Prelude.{◌≡◌};
ghost use Rattle.std.specs.List.{flat_map};
ghost use Rattle.qc_io.specs.Writes.{Writes};
ghost use Rattle.qc_run.specs.Reports.{Prints, PrintsPart, Reports};
ghost use Rattle.qc_run.specs.declared.status.Status.TheVariants as status;
ghost use Rattle.qc_dispatch.specs.Following.{journal_of};
ghost use Rattle.qc_log_commands.specs.DispatchTexts.{event_line, journal_text, state_text};
ghost use Rattle.qc_log_commands.specs.DispatchTold.{dispatching_status, dispatching_text};

use crate::dispatching::{Dispatched, Dispatching};
use crate::waits::waits_of;
use qc_dispatch::{Dispatch, Event, Followed};
use qc_io::{Sink, WriteFault, put_all};
use qc_num::{OutOfMemory, Text};
use qc_run::{Cause, Ended, Status, report_broken};
use std::alloc::Global;

/// The line of what happened.
fn event_line(event: &Event) -> Text<64>
    ensures { result ≡ event_line event.now }
{
    match event {
        Event::Started(task, crane, at) => {
            let mut line = Text::of(b"start ");
            line.push(task.as_bytes());
            line.push(b" ");
            line.push(crane.as_bytes());
            line.push(b" ");
            line.push_number(*at);
            line.push(b"\n");
            line
        }
        Event::Finished(task, at) => {
            let mut line = Text::of(b"end ");
            line.push(task.as_bytes());
            line.push(b" ");
            line.push_number(*at);
            line.push(b"\n");
            line
        }
    }
}

/// How things stand.
fn state_text(dispatch: &Dispatch) -> Text<128>
    ensures { result ≡ state_text dispatch.now }
{
    let mut text = Text::of(b"now ");
    text.push_number(dispatch.now());
    text.push(b"\nleft ");
    text.push_number(u64::from(dispatch.left()));
    text.push(b"\nrunning ");
    text.push_number(u64::from(dispatch.running()));
    text.push(b"\n");
    text
}

/// Writes the lines of what happened.
fn put_events<K: Sink>(events: &[Event], sink: &mut K) -> Result<(), WriteFault>
    ensures { Writes (K.view sink.old) (K.view sink.new) (flat_map event_line events.now) result }
{
    for event in events {
        put_all(sink, event_line(event).as_bytes())?;
    }
    Ok(())
}

/// Writes what happened, and how things stand.
#[tactic(auto, using(qc_io::proofs::WritesLemmas::writes_cut))]
fn put_followed<K: Sink>(followed: &Followed, sink: &mut K) -> Result<(), WriteFault>
    ensures { Writes (K.view sink.old) (K.view sink.new) (journal_text (journal_of followed.now)) result }
{
    put_events(followed.events.as_slice(), sink)?;
    put_all(sink, state_text(&followed.dispatch).as_bytes())
}

/// Prints what happened, and how things stand.
fn report_followed<K: Sink>(followed: &Followed, out: &mut K) -> Status
    ensures { Reports (Prints (journal_text (journal_of followed.now)))
        (PrintsPart (journal_text (journal_of followed.now))) status.Done (K.view out.old) (K.view out.new) result }
{
    match put_followed(followed, out) {
        Ok(()) => Status::Done,
        Err(WriteFault) => Status::WriteFault,
    }
}

/// Hands on what cranes wait for where the log ends, if there is memory for it.
fn ended_of(alloc: Global, status: Status, told: &Dispatched) -> Ended
    ensures { result.status ≡ status }
{
    let cause = match waits_of(alloc, told) {
        Ok(waits) => Some(Cause::Waits(waits)),
        Err(OutOfMemory) => None,
    };
    Ended { status, cause }
}

/// Prints what a plan came to whose order is followed by a log.
pub(crate) fn report<K: Sink>(alloc: Global, answer: Dispatching, out: &mut K) -> Ended
    ensures { Reports (Prints (dispatching_text answer)) (PrintsPart (dispatching_text answer))
        (dispatching_status answer) (K.view out.old) (K.view out.new) result.status }
{
    match answer {
        Dispatching::Broken(told) => report_broken(told, out),
        Dispatching::Dispatched(told) => {
            let status = report_followed(&told.followed, out);
            ended_of(alloc, status, &told)
        }
    }
}
