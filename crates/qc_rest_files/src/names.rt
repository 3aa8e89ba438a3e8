//! The entries of a ship file that speak of tasks by their names.

ghost use Rattle.std.specs.Prelude.{◌≡◌, ◌<◌, ◌^◌, IfOk, filter, map, string_bytes};
ghost use Rattle.toml.specs.View.{view};
ghost use Rattle.qc_rest_files.specs.RestShip.{are_named, is_held, is_named, release_of, releases_of};
ghost use Rattle.qc_rest_files.specs.ShipTable.{before_value, name_value, release_value};
ghost use Rattle.qc_ship.specs.ShipFile.{name_text};
ghost use Rattle.qc_tasks.specs.InstanceOf.{has_name};

use crate::values::{number_value, two_values};
use qc_model::{Instance, Phase, Task};
use qc_num::OutOfMemory;
use qc_ship::{NamePair, NameTick, TaskName};
use std::alloc::Global;
use toml::Value;

/// Whether a name is that of a task.
fn has_name(name: TaskName, task: &Task) -> bool
    ensures { result ≡ has_name name task.now }
{
    task.hatch == name.hatch && task.phase.rank() == name.phase.rank()
}

/// Whether one of the tasks has the name.
fn is_named(tasks: &[Task], name: TaskName) -> bool
    ensures { result ≡ is_named tasks.now name }
{
    tasks.iter().any(|task| has_name(name, task))
}

/// Whether both tasks of an entry are among these.
fn are_named(tasks: &[Task], pair: NamePair) -> bool
    ensures { result ≡ are_named tasks.now pair }
{
    is_named(tasks, pair.first) && is_named(tasks, pair.second)
}

/// The name of a task: its hatch, `-` and its phase.
fn name_of(alloc: Global, name: TaskName) -> Result<String, OutOfMemory>
    ensures { IfOk result (λ text. string_bytes text ≡ name_text name.hatch name.phase) }
{
    let hatch = name.hatch;
    Ok(match name.phase {
        Phase::DeckOut => format!(in alloc; "{hatch}-DD")?,
        Phase::HoldOut => format!(in alloc; "{hatch}-DH")?,
        Phase::HoldIn => format!(in alloc; "{hatch}-LH")?,
        Phase::DeckIn => format!(in alloc; "{hatch}-LD")?,
    })
}

/// The name of a task as a value.
fn name_value(alloc: Global, name: TaskName) -> Result<Value, OutOfMemory>
    ensures { IfOk result (λ v. view v ≡ name_value name) }
{
    Ok(Value::String(name_of(alloc, name)?))
}

/// The names of two tasks as a value.
fn before_value(alloc: Global, pair: NamePair) -> Result<Value, OutOfMemory>
    ensures { IfOk result (λ v. view v ≡ before_value pair) }
{
    let first = name_value(alloc, pair.first)?;
    let second = name_value(alloc, pair.second)?;
    two_values(alloc, first, second)
}

/// The name of a task and a tick as a value.
fn release_value(alloc: Global, entry: NameTick) -> Result<Value, OutOfMemory>
    requires { entry.tick < 2 ^ 63 }
    ensures { IfOk result (λ v. view v ≡ release_value entry) }
{
    let name = name_value(alloc, entry.name)?;
    two_values(alloc, name, number_value(entry.tick))
}

/// Whether a task is held back.
fn is_held(task: Task) -> bool
    ensures { result ≡ is_held task }
{
    task.release != 0
}

/// The entry that holds a task back until its release.
fn release_of(task: Task) -> NameTick
    ensures { result ≡ release_of task }
{
    NameTick {
        name: TaskName {
            hatch: task.hatch,
            phase: task.phase,
        },
        tick: task.release,
    }
}

/// The entries of which both tasks are among these, as values.
pub(crate) fn before_values(
    alloc: Global,
    pairs: &[NamePair],
    tasks: &[Task],
) -> Result<Vec<Value>, OutOfMemory>
    ensures { IfOk result (λ v. map view v.items ≡ map before_value (filter (are_named tasks.now) pairs.now)) }
{
    let mut values = Vec::new(alloc);
    for pair in pairs {
        if are_named(tasks, *pair) {
            values.push(before_value(alloc, *pair)?)?;
        }
    }
    Ok(values)
}

/// The entries that hold the tasks of an instance back, as values.
pub(crate) fn release_values(alloc: Global, inst: &Instance) -> Result<Vec<Value>, OutOfMemory>
    ensures { IfOk result (λ v. map view v.items ≡ map release_value (releases_of inst.now.tasks)) }
{
    let mut values = Vec::new(alloc);
    for j in 0..inst.task_count() {
        let task = inst.task(j);
        if is_held(task) {
            values.push(release_value(alloc, release_of(task))?)?;
        }
    }
    Ok(values)
}
