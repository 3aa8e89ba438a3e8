//! What is noted beside the odds of a plan.
ghost use Rattle.qc_voice.specs.Frame.{LeavesFiles};

use crate::texts::{again, instance_of, past_of};
use qc_explain::say_calls;
use qc_io::Shelf;
use qc_page::Page;
use qc_run::OddsAsked;

/// Notes what the calls are worth that the chances come from.
pub(crate) fn say_chances<S: Shelf>(page: &mut Page, shelf: &mut S, asked: &OddsAsked<'_>)
    ensures { LeavesFiles (S.Sink.view shelf.old) (S.Sink.view shelf.new) }
{
    let Some((name, table)) = again(page, shelf, asked.inputs.past) else {
        return;
    };
    let Some((_, ship)) = again(page, shelf, Some(asked.inputs.ship)) else {
        return;
    };
    let Some(inst) = instance_of(page, shelf, &asked.inputs, ship.as_slice()) else {
        return;
    };
    if let Some(past) = past_of(page, table.as_slice()) {
        say_calls(page, name, &past, &inst, u64::from(asked.runs))
    }
}
