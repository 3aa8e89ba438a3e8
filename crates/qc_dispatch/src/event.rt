//! What happens in the course of the work.

ghost use Rattle.std.specs.Prelude.{◌≡◌, ◌<◌, length};
ghost use Rattle.qc_dispatch.specs.Events.{finished_event, started_event};

use crate::grant::Grant;
use qc_model::{Instance, TaskText};
use qc_num::{Text, Tick};

/// What happens in the course of the work, by names.
#[derive(Drop)]
pub enum Event {
    /// A task starts: its name, its crane's, and the tick.
    Started(TaskText, Text<12>, Tick),
    /// A task ends: its name, and the tick.
    Finished(TaskText, Tick),
}

/// The start that a grant gives leave for.
pub(crate) fn started(inst: &Instance, grant: Grant) -> Event
    requires task { grant.task < length inst.now.tasks }
    requires crane { grant.crane < length inst.now.cranes }
    ensures { result ≡ started_event inst.now grant }
{
    let crane = inst.crane(grant.crane);
    Event::Started(
        inst.task(grant.task).text(),
        Text::of(crane.name.as_bytes()),
        grant.at,
    )
}

/// The end of a task.
pub(crate) fn finished(inst: &Instance, task: u16, at: Tick) -> Event
    requires { task < length inst.now.tasks }
    ensures { result ≡ finished_event inst.now task at }
{
    Event::Finished(inst.task(task).text(), at)
}
