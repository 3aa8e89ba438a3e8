//! What is said after a list of moves.
ghost use Rattle.qc_voice.specs.Frame.{LeavesFiles};

use crate::texts::again;
use crate::voice::{FAULT_UNSHOWN, LARGE, MISSING, say_named};
use qc_bay_hints::{say_bay_plan, say_moves};
use qc_bayplan::{BayPlanFault, Which};
use qc_io::Shelf;
use qc_page::Page;
use qc_run::{Cause, Ended, Input, MovesAsked, Refusal, Status};

/// Says what is wrong with a bay plan.
fn say_bad_plan<S: Shelf>(
    page: &mut Page,
    shelf: &mut S,
    asked: &MovesAsked<'_>,
    which: Which,
    fault: BayPlanFault,
)
    ensures { LeavesFiles (S.Sink.view shelf.old) (S.Sink.view shelf.new) }
{
    let name = asked.name_of(which);
    match again(page, shelf, Some(name)) {
        Some((_, bytes)) => say_bay_plan(page, name, bytes.as_slice(), which, fault),
        None => say_of(page, asked, input_of(which), FAULT_UNSHOWN),
    }
}

/// The file that holds a bay plan.
fn input_of(which: Which) -> Input {
    match which {
        Which::Arrival => Input::Arrival,
        Which::Departure => Input::Departure,
    }
}

/// Says something of a bay plan's file.
fn say_of(page: &mut Page, asked: &MovesAsked<'_>, file: Input, why: &str) {
    match file {
        Input::Arrival => say_named(page, asked.arrival, file, why),
        Input::Departure => say_named(page, asked.departure, file, why),
        _ => {}
    }
}

/// Says why a list of moves wasn't made.
fn say_refusal<S: Shelf>(page: &mut Page, shelf: &mut S, asked: &MovesAsked<'_>, why: Refusal)
    ensures { LeavesFiles (S.Sink.view shelf.old) (S.Sink.view shelf.new) }
{
    match why {
        Refusal::ReadFault(file) => say_of(page, asked, file, MISSING),
        Refusal::TooLarge(file) => say_of(page, asked, file, LARGE),
        Refusal::BadBayPlan(which, fault) => say_bad_plan(page, shelf, asked, which, fault),
        _ => {}
    }
}

/// Says what is to be noted on a list of moves that was made.
fn say_made<S: Shelf>(page: &mut Page, shelf: &mut S, asked: &MovesAsked<'_>)
    ensures { LeavesFiles (S.Sink.view shelf.old) (S.Sink.view shelf.new) }
{
    let Some((arrival, first)) = again(page, shelf, Some(asked.arrival)) else {
        return;
    };
    let Some((departure, second)) = again(page, shelf, Some(asked.departure)) else {
        return;
    };
    say_moves(
        page,
        (arrival, first.as_slice()),
        (departure, second.as_slice()),
    )
}

/// Says what there is to say of a list of moves.
pub(crate) fn say_bay_plans<S: Shelf>(
    page: &mut Page,
    shelf: &mut S,
    asked: &MovesAsked<'_>,
    ended: &Ended,
)
    ensures { LeavesFiles (S.Sink.view shelf.old) (S.Sink.view shelf.new) }
{
    match &ended.cause {
        Some(Cause::Refused(why)) => say_refusal(page, shelf, asked, *why),
        _ => {
            if ended.status == Status::Done {
                say_made(page, shelf, asked)
            }
        }
    }
}
