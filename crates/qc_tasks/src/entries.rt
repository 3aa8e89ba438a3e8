//! The planner's own order of tasks, as pairs of their numbers.
ghost use Rattle.std.specs.Prelude.{◌≡◌, ◌<◌, ℕ, ◌||◌, length, position, OnOk};
ghost use Rattle.qc_tasks.specs.InstanceOf.{has_name, is_put_before, puts_before, task_at};
ghost use Rattle.qc_tasks.specs.Marks.{ShareNoName};
ghost use Rattle.qc_tasks.specs.Restows.{is_in, is_pair};

use crate::tasks::is_name_of;
use indexmap::IndexSet;
use qc_model::Task;
use qc_num::OutOfMemory;
use qc_ship::{NamePair, TaskName};

/// Whether a task has this name.
fn has_name(name: TaskName, task: &Task) -> bool
    ensures { result ≡ has_name name task.now }
{
    is_name_of(task.hatch, task.phase, name)
}

/// The number of the task of this name; `None` where it has no move.
fn task_named(tasks: &[Task], name: TaskName) -> Option<usize>
    ensures { result ≡ position (λ t. has_name name t) tasks.now }
{
    tasks.iter().position(|task| has_name(name, task))
}

/// The tasks that an entry names, where both have a move.
fn tasks_in(tasks: &[Task], entry: &NamePair) -> Option<(usize, usize)>
    requires { ShareNoName tasks.now }
    ensures { (i j : ℕ) → i < length tasks.now → j < length tasks.now
        → is_pair i j result ≡ puts_before (task_at tasks.now i) (task_at tasks.now j) entry.now }
{
    let first = task_named(tasks, entry.first)?;
    let second = task_named(tasks, entry.second)?;
    Some((first, second))
}

/// Adds the tasks of all entries to a set.
pub(crate) fn add_entries(
    pairs: &mut IndexSet<(usize, usize)>,
    tasks: &[Task],
    entries: &[NamePair],
) -> Result<(), OutOfMemory>
    requires { ShareNoName tasks.now }
    ensures { OnOk result ((i j : ℕ) → i < length tasks.now → j < length tasks.now
        → is_in pairs.new i j ≡ (is_in pairs.old i j || is_put_before entries.now tasks.now i j)) }
{
    for entry in entries {
        if let Some(pair) = tasks_in(tasks, entry) {
            pairs.insert(pair)?;
        }
    }
    Ok(())
}
