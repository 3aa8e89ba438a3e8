//! The report of a work sheet.
ghost use Rattle.qc_run.specs.Reports.{Prints, PrintsPart, Reports};
ghost use Rattle.qc_run.specs.declared.status.Status.TheVariants as status;
ghost use Rattle.qc_sheet.specs.SheetText.{sheet_text};
ghost use Rattle.qc_sheet_command.specs.Listed.{CanBeListed, TellsSheet, listing_status, listing_text, work_of};

use crate::answer::{Listed, Listing};
use qc_io::{Sink, WriteFault};
use qc_run::{Ended, Status, report_broken};
use qc_sheet::write_sheet;

/// Prints a work sheet.
fn report_sheet<K: Sink>(told: &Listed, out: &mut K) -> Status
    requires { TellsSheet told.now }
    ensures { Reports (Prints (sheet_text (work_of told.now))) (PrintsPart (sheet_text (work_of told.now)))
        status.Done (K.view out.old) (K.view out.new) result }
{
    let Listed { load, sheet } = told;
    let cargo = &load.cargo;
    match write_sheet(
        &cargo.inst,
        &cargo.ship,
        &cargo.moves,
        &load.sched,
        sheet,
        out,
    ) {
        Ok(()) => Status::Done,
        Err(WriteFault) => Status::WriteFault,
    }
}

/// Prints what a plan came to whose work sheet is asked for.
pub(crate) fn report<K: Sink>(answer: Listing, out: &mut K) -> Ended
    requires { CanBeListed answer }
    ensures { Reports (Prints (listing_text answer)) (PrintsPart (listing_text answer)) (listing_status answer)
        (K.view out.old) (K.view out.new) result.status }
{
    match answer {
        Listing::Broken(told) => report_broken(told, out),
        Listing::Listed(told) => Ended::of(report_sheet(&told, out)),
    }
}
