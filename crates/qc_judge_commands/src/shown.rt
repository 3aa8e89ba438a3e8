//! The report of a plan that is shown.
ghost use Rattle.std.specs.Prelude.{◌≤◌, ◌≡◌, length};
ghost use Rattle.qc_model.specs.Judge.{Goes, IsJudgeable};
ghost use Rattle.qc_run.specs.Moved.{WritesMoved};
ghost use Rattle.qc_run.specs.Reports.{Reports};
ghost use Rattle.qc_run.specs.declared.status.Status.TheVariants as status;
ghost use Rattle.qc_judge_commands.specs.Reports.{CanBeShown, IsShownCut, IsShownPrinted, IsShowReady, WritesShown, showing_prints, showing_prints_part, showing_status};
ghost use Rattle.qc_judge_commands.specs.Texts.{head_text, shown_head};

use crate::answer::{Showing, Shown};
use qc_gantt::{write_gantt, write_tracks};
use qc_io::{Sink, WriteFault, put_all};
use qc_model::{Direction, Instance, Schedule, ends};
use qc_motion::Track;
use qc_num::{Text, Tick};
use qc_run::{Ended, Status, direction_text, report_broken};

/// The lines ahead of a plan's motion.
fn head_text(direction: Direction, end: Tick) -> Text<64>
    ensures { result ≡ head_text direction end }
{
    let mut text = Text::of(b"direction ");
    text.push(direction_text(direction));
    text.push(b"\nend ");
    text.push_number(end);
    text.push(b"\n");
    text
}

/// Writes the direction, the end and the motion of each crane.
fn put_motion<K: Sink>(
    inst: &Instance,
    sched: &Schedule,
    direction: Direction,
    track: &mut Track,
    out: &mut K,
) -> Result<(), WriteFault>
    requires judgeable { IsJudgeable inst.now sched.now }
    requires goes { Goes inst.now sched.now direction }
    requires room { length inst.now.tasks ≤ track.old.tasks }
    ensures { WritesMoved (K.view out.old) (K.view out.new)
        (shown_head inst.now sched.now direction) inst.now sched.now direction result }
{
    put_all(out, head_text(direction, ends(inst, sched)).as_bytes())?;
    write_tracks(inst, sched, direction, track, out)
}

/// Writes the motion of a plan, and what each crane does along a line of 60 characters.
fn put_shown<K: Sink>(told: Shown, out: &mut K) -> Result<(), WriteFault>
    requires { IsShowReady told }
    ensures { WritesShown (K.view out.old) (K.view out.new) told result }
{
    let Shown {
        inst,
        sched,
        mut track,
        direction,
    } = told;
    put_motion(&inst, &sched, direction, &mut track, out)?;
    write_gantt(&inst, &sched, out)
}

/// Prints the motion of a plan.
fn report_shown<K: Sink>(told: Shown, out: &mut K) -> Ended
    requires { IsShowReady told }
    ensures { Reports (IsShownPrinted told) (IsShownCut told) status.Done
        (K.view out.old) (K.view out.new) result.status }
{
    match put_shown(told, out) {
        Ok(()) => Ended::of(Status::Done),
        Err(WriteFault) => Ended::of(Status::WriteFault),
    }
}

/// Prints what a plan that is shown came to.
pub(crate) fn report<K: Sink>(answer: Showing, out: &mut K) -> Ended
    requires { CanBeShown answer }
    ensures { Reports (showing_prints answer) (showing_prints_part answer) (showing_status answer)
        (K.view out.old) (K.view out.new) result.status }
{
    match answer {
        Showing::Broken(told) => report_broken(told, out),
        Showing::Shown(told) => report_shown(told, out),
    }
}
