//! The report of a plan.
ghost use Rattle.std.specs.Prelude.{◌≡◌, ◌≤◌, length};
ghost use Rattle.qc_run.specs.Reports.{Reports};
ghost use Rattle.qc_plan_command.specs.Lines.{WritesLines, WritesPlan};
ghost use Rattle.qc_plan_command.specs.Reports.{CanBeMoved, CanBeTold, IsPlanCut, IsPlanPrinted, IsReady, found_status, given_text, infeasible_text, plan_prints, plan_prints_part, plan_status, planned_text, unplanned_text, way_text};
ghost use Rattle.qc_model.specs.Judge.{IsJudgeable};

use crate::answer::{Motion, PlanAnswer, Planned};
use qc_freemove::write_free_tracks;
use qc_gantt::write_tracks;
use qc_io::{Sink, WriteFault, put_all};
use qc_model::{Instance, Schedule};
use qc_num::{Text, Tick};
use qc_run::{Ended, Status, direction_text, report_broken, report_text};
use qc_search::{Kind, kind_word};

/// The end of a given schedule, or that none was given.
fn given_text(given: Option<Tick>) -> Text<32>
    ensures text { result ≡ given_text given }
    ensures short { length result ≤ 20 }
{
    match given {
        Some(end) => {
            let mut text = Text::new();
            text.push_number(end);
            text
        }
        None => Text::of(b"none"),
    }
}

/// The way of a plan whose cranes go one way; that of others isn't told.
fn way_text(motion: &Motion) -> Text<32>
    ensures text { result ≡ way_text motion.now }
    ensures short { length result ≤ 20 }
{
    match motion {
        Motion::OneWay { direction, .. } => {
            let mut text = Text::of(b"\ndirection ");
            text.push(direction_text(*direction));
            text
        }
        Motion::Free { .. } => Text::new(),
    }
}

/// The summary of a search that knows a schedule.
fn planned_text(told: &Planned) -> Text<160>
    ensures { result ≡ planned_text told.now }
{
    let mut text = Text::new();
    text.push(kind_word(told.kind));
    text.push(b"\nend ");
    text.push_number(told.end);
    text.push(b"\nbound ");
    text.push_number(told.bound);
    text.push(b"\nbranched ");
    text.push_number(told.branched);
    text.push(b"\ngiven ");
    text.push(given_text(told.given).as_bytes());
    text.push(way_text(&told.motion).as_bytes());
    text.push(b"\n");
    text
}

/// What is told of a search that spent its branchings and knows no schedule.
fn unplanned_text(bound: Tick, branched: u64) -> Text<64>
    ensures { result ≡ unplanned_text bound branched }
{
    let mut text = Text::of(b"Budget\nbound ");
    text.push_number(bound);
    text.push(b"\nbranched ");
    text.push_number(branched);
    text.push(b"\n");
    text
}

/// What is told of a search that showed that there is no schedule.
fn infeasible_text(branched: u64) -> Text<64>
    ensures { result ≡ infeasible_text branched }
{
    let mut text = Text::of(b"Infeasible\nbranched ");
    text.push_number(branched);
    text.push(b"\n");
    text
}

/// Writes where each crane stands.
fn put_lines<K: Sink>(
    inst: &Instance,
    sched: &Schedule,
    motion: Motion,
    out: &mut K,
) -> Result<(), WriteFault>
    requires judgeable { IsJudgeable inst.now sched.now }
    requires ready { CanBeMoved inst.now sched.now motion }
    ensures { WritesLines inst.now sched.now motion (K.view out.old) (K.view out.new) result }
{
    match motion {
        Motion::OneWay {
            direction,
            mut track,
        } => write_tracks(inst, sched, direction, &mut track, out),
        Motion::Free { mut track } => write_free_tracks(inst, sched, &mut track, out),
    }
}

/// Writes the summary of a search that knows a schedule, and the motion of each crane.
fn put_moved<K: Sink>(told: Planned, out: &mut K) -> Result<(), WriteFault>
    requires { IsReady told }
    ensures { WritesPlan told (K.view out.old) (K.view out.new) result }
{
    let Ok(()) = put_all(out, planned_text(&told).as_bytes()) else {
        drop(told);
        return Err(WriteFault);
    };
    let Planned {
        inst,
        sched,
        motion,
        ..
    } = told;
    put_lines(&inst, &sched, motion, out)
}

/// The status of a plan that was found.
fn found_status(kind: Kind) -> Status
    ensures { result ≡ found_status kind }
{
    match kind {
        Kind::Optimal => Status::Optimal,
        Kind::Infeasible | Kind::Budget => Status::BudgetPlan,
    }
}

/// Prints what is told of a plan that was found.
fn report_planned<K: Sink>(told: Planned, out: &mut K) -> Ended
    requires { IsReady told }
    ensures { Reports (IsPlanPrinted told) (IsPlanCut told) (found_status told.kind)
        (K.view out.old) (K.view out.new) result.status }
{
    let status = found_status(told.kind);
    match put_moved(told, out) {
        Ok(()) => Ended::of(status),
        Err(WriteFault) => Ended::of(Status::WriteFault),
    }
}

/// Prints what a plan came to.
pub(crate) fn report<K: Sink>(answer: PlanAnswer, out: &mut K) -> Ended
    requires { CanBeTold answer }
    ensures { Reports (plan_prints answer) (plan_prints_part answer) (plan_status answer)
        (K.view out.old) (K.view out.new) result.status }
{
    match answer {
        PlanAnswer::WriteFault => report_text(Status::WriteFault, b"WriteFault\n", out),
        PlanAnswer::Broken(told) => report_broken(told, out),
        PlanAnswer::Planned(told) => report_planned(told, out),
        PlanAnswer::Unplanned { bound, branched } => {
            report_text(
                Status::BudgetNone,
                unplanned_text(bound, branched).as_bytes(),
                out,
            )
        }
        PlanAnswer::Infeasible { branched } => {
            report_text(
                Status::Infeasible,
                infeasible_text(branched).as_bytes(),
                out,
            )
        }
    }
}
