//! Tasks and cranes by their names.

ghost use Rattle.std.specs.Prelude.{◌≡◌, ◌<◌, ◌^◌, List, ℕ, length, map, IfOk, IfSome, OnOk};
ghost use Rattle.indexmap.specs.IndexMap.{IsEmpty};
ghost use Rattle.qc_model.specs.Tasks.{task_text};
ghost use Rattle.qc_gantt.specs.Names.{Finds, crane_names, number_of, task_names};

use indexmap::IndexMap;
use qc_model::{Crane, Instance, Task, TaskText};
use qc_num::OutOfMemory;
use std::alloc::Global;

// What has a name.
pub(crate) trait Named {
    ghost name_of: { Self → List ℕ };

    fn name(&self) -> &[u8]
        ensures { result.now ≡ name_of self.now };
}

impl Named for TaskText {
    ghost name_of = { λ text. text };

    fn name(&self) -> &[u8] {
        self.as_bytes()
    }
}

impl Named for Crane {
    ghost name_of = { λ crane. crane.name };

    fn name(&self) -> &[u8] {
        self.name.as_bytes()
    }
}

// The names of the tasks, in their order.
pub(crate) fn task_texts(alloc: Global, tasks: &[Task]) -> Result<Vec<TaskText>, OutOfMemory>
    ensures { IfOk result (λ v. v.items ≡ map task_text tasks.now) }
{
    let mut texts = Vec::new(alloc);
    for task in tasks {
        texts.push(task.text())?;
    }
    Ok(texts)
}

// Gives each name its number, counted from 0, in a map that is empty. Of equal names the first one counts.
fn number_all<'a, N: Named>(
    numbers: &mut IndexMap<&'a [u8], u16>,
    items: &'a [N],
) -> Result<(), OutOfMemory>
    requires empty { IsEmpty numbers.old }
    requires few { length items.now < 2 ^ 16 }
    ensures { OnOk result (Finds numbers.new (map N.name_of items.now)) }
{
    for (number, item) in items.iter().enumerate() {
        let name = item.name();
        if !numbers.contains_key(&name) {
            numbers.insert(name, number as u16)?;
        }
    }
    Ok(())
}

// The number of each name, counted from 0. Of equal names the first one counts.
pub(crate) fn numbers_of<'a, N: Named>(
    alloc: Global,
    items: &'a [N],
) -> Result<IndexMap<&'a [u8], u16>, OutOfMemory>
    requires { length items.now < 2 ^ 16 }
    ensures { IfOk result (λ numbers. Finds numbers (map N.name_of items.now)) }
{
    let mut numbers = IndexMap::new(alloc);
    match number_all(&mut numbers, items) {
        Ok(()) => Ok(numbers),
        Err(error) => {
            drop(numbers);
            Err(error)
        }
    }
}

// The number of the task of this name.
pub(crate) fn task_named(inst: &Instance, tasks: &IndexMap<&[u8], u16>, name: &[u8]) -> Option<u16>
    requires { Finds tasks.now (task_names inst.now) }
    ensures number { result ≡ number_of (task_names inst.now) name.now }
    ensures range { IfSome result (λ task. task < length inst.now.tasks) }
{
    tasks.get(&name).copied()
}

// The number of the crane of this name.
pub(crate) fn crane_named(
    inst: &Instance,
    cranes: &IndexMap<&[u8], u16>,
    name: &[u8],
) -> Option<u16>
    requires { Finds cranes.now (crane_names inst.now) }
    ensures { result ≡ number_of (crane_names inst.now) name.now }
{
    cranes.get(&name).copied()
}
