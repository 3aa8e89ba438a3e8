//! The texts that tell of a plan.
ghost use Rattle.std.specs.Prelude.{◌≡◌, IfOk};
ghost use Rattle.qc_figures.specs.Views.{view_of};
ghost use Rattle.qc_run.specs.Reports.{Prints, PrintsPart, Reports};
ghost use Rattle.qc_picture_command.specs.Motion.{IsPrintable};
ghost use Rattle.qc_picture_command.specs.Planned.{Tells, TellsFigures, TellsPicture, plan_with, printed_status, printed_text};

use crate::answer::{Planned, Print, Printed};
use qc_figures::{Figured, write_figures};
use qc_io::Sink;
use qc_num::{Bytes, OutOfMemory};
use qc_picture::{Drawn, write_picture};
use qc_run::{Ended, Status, report_broken, report_text};
use std::alloc::Global;

/// What the figures and the drawing of a plan are told of.
fn figured(plan: &Planned) -> Figured<'_>
    ensures { view_of result ≡ plan_with plan.now.load plan.now.way plan.now.tracks }
{
    let cargo = &plan.load.cargo;
    Figured {
        inst: &cargo.inst,
        rows: cargo.moves.rows(),
        sched: &plan.load.sched,
        way: plan.way,
        tracks: &plan.tracks,
    }
}

/// The figures of each crane of a plan.
fn figures_of(alloc: Global, plan: &Planned) -> Result<Bytes, OutOfMemory>
    requires { IsPrintable plan.now }
    ensures { IfOk result (TellsFigures plan.now.load) }
{
    write_figures(alloc, &figured(plan))
}

/// The drawing of a plan.
fn picture_of(alloc: Global, plan: &Planned) -> Result<Bytes, OutOfMemory>
    requires { IsPrintable plan.now }
    ensures { IfOk result (TellsPicture plan.now.load) }
{
    let ship = &plan.load.cargo.ship;
    write_picture(
        alloc,
        &Drawn {
            plan: figured(plan),
            hatches: ship.hatches(),
            places: ship.places(),
        },
    )
}

/// What is asked for of a plan.
pub(crate) fn text_of(alloc: Global, what: Print, plan: &Planned) -> Result<Bytes, OutOfMemory>
    requires { IsPrintable plan.now }
    ensures { IfOk result (Tells what plan.now.load) }
{
    match what {
        Print::Figures => figures_of(alloc, plan),
        Print::Picture => picture_of(alloc, plan),
    }
}

/// Prints what a plan came to.
pub(crate) fn report<K: Sink>(answer: Printed, out: &mut K) -> Ended
    ensures { Reports (Prints (printed_text answer)) (PrintsPart (printed_text answer)) (printed_status answer)
        (K.view out.old) (K.view out.new) result.status }
{
    match answer {
        Printed::Broken(told) => report_broken(told, out),
        Printed::Text(text) => report_text(Status::Done, text.as_slice(), out),
    }
}
