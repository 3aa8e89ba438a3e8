//! What is told where what is left of a plan can't be planned.
ghost use Rattle.std.specs.Prelude.{◌≡◌, ◌<◌, List, length, ℕ};
ghost use Rattle.qc_dispatch.specs.Following.{journal_of};
ghost use Rattle.qc_dispatch.specs.Journal.{IsFollowed};
ghost use Rattle.qc_model.specs.declared.schedule.Slot.{Slot};
ghost use Rattle.qc_model.specs.Instance.{InstanceView, crane};
ghost use Rattle.qc_rest.specs.declared.rest.RestError.TheVariants as error;
ghost use Rattle.qc_rest_command.specs.Texts.{TellsNoRest};

use crate::answer::Worked;
use qc_dispatch::Dispatch;
use qc_model::{Instance, TaskText};
use qc_num::{OutOfMemory, Text};
use qc_rest::is_run_out;
use qc_run::{NoRest, NoRestKind};
use std::alloc::Global;

/// The names of all tasks that run and need no tick more.
fn names_of_due(alloc: Global, worked: &Worked) -> Result<Vec<TaskText>, OutOfMemory>
    requires followed { (inst : InstanceView) × ((plan : List Slot) × ((text : List ℕ)
        × IsFollowed inst plan text (journal_of worked.now.followed))) }
{
    let followed = &worked.followed;
    let inst = followed.dispatch.instance();
    let mut names = Vec::new(alloc);
    for task in 0..inst.task_count() {
        if is_run_out(followed, task) {
            names.push(inst.task(task).text())?;
        }
    }
    Ok(names)
}

/// The lowest task that runs and needs no tick more, with the names of all, where there is memory for them.
pub(crate) fn over_told(alloc: Global, worked: &Worked, number: u16) -> NoRest
    requires followed { (inst : InstanceView) × ((plan : List Slot) × ((text : List ℕ)
        × IsFollowed inst plan text (journal_of worked.now.followed))) }
    requires inside { number < length worked.now.followed.dispatch.inst.tasks }
    ensures { TellsNoRest worked.now.followed.dispatch.inst (error.Over number) result }
{
    let over = match names_of_due(alloc, worked) {
        Ok(names) => names,
        Err(OutOfMemory) => Vec::new(alloc),
    };
    let task = worked.followed.dispatch.instance().task(number);
    NoRest {
        kind: NoRestKind::Over,
        name: Text::of(task.text().as_bytes()),
        over,
    }
}

/// What is told of a crane.
fn crane_told(alloc: Global, kind: NoRestKind, inst: &Instance, number: u16) -> NoRest
    requires { number < length inst.now.cranes }
    ensures kind { result.kind ≡ kind }
    ensures name { result.name ≡ (crane inst.now number).name }
{
    NoRest {
        kind,
        name: Text::of(inst.crane(number).name.as_bytes()),
        over: Vec::new(alloc),
    }
}

/// A crane would be ready too late.
pub(crate) fn late_told(alloc: Global, dispatch: &Dispatch, number: u16) -> NoRest
    requires { number < length dispatch.now.inst.cranes }
    ensures { TellsNoRest dispatch.now.inst (error.Ready number) result }
{
    crane_told(alloc, NoRestKind::Ready, dispatch.instance(), number)
}

/// A crane would stand where no ship file may put it.
pub(crate) fn far_told(alloc: Global, dispatch: &Dispatch, number: u16) -> NoRest
    requires { number < length dispatch.now.inst.cranes }
    ensures { TellsNoRest dispatch.now.inst (error.Bay number) result }
{
    crane_told(alloc, NoRestKind::Bay, dispatch.instance(), number)
}
