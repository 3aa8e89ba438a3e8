//! The slots that records give the tasks.

ghost use Rattle.std.specs.Prelude.{◌≡◌, ◌<◌, ◌≤◌, ◌+◌, None, Some, length, map, not, is_some, IfOk, IsOk, IsTrue, MatchResult, Ok, Err, replicate, slice_index_or, slice_set};
ghost use Rattle.csv.specs.Records.{fields_of};
ghost use Rattle.qc_model.specs.Tasks.{task_text};
ghost use Rattle.qc_gantt.specs.Entries.{entry_beside};
ghost use Rattle.qc_gantt.specs.Names.{Finds, crane_names, task_names};
ghost use Rattle.qc_gantt.specs.Plan.{slots_of};
ghost use Rattle.qc_num.specs.Reading.{IsReading};

use crate::entry::{Entry, read_entry};
use crate::fault::{PlanError, PlanFault, PlanKind};
use crate::names::{numbers_of, task_texts};
use csv::ByteRecord;
use indexmap::IndexMap;
use qc_model::{Instance, MOST_TASKS, Slot, TaskText};
use qc_num::OutOfMemory;
use std::alloc::Global;

/// The fault of a record, by its place among those behind the header from 0.
pub(crate) fn fault(at: usize, kind: PlanKind) -> PlanFault
    requires { at ≤ MOST_TASKS }
    ensures { result ≡ record { number = at + 2; kind = kind } }
{
    PlanFault {
        number: at as u32 + 2,
        kind,
    }
}

/// Gives the task of an entry its slot; `false` where it has one already.
fn give(slots: &mut [Option<Slot>], entry: Entry) -> bool
    requires { entry.task < length slots.old }
    ensures free { result ≡ not (is_some (slice_index_or slots.old entry.task None)) }
    ensures given { IsTrue result → slots.new ≡ slice_set slots.old entry.task (Some entry.slot) }
{
    let task = entry.task as usize;
    if slots[task].is_some() {
        return false;
    }
    slots[task] = Some(entry.slot);
    true
}

/// Gives the task of a record its slot.
fn next_entry(
    fields: &ByteRecord,
    inst: &Instance,
    tasks: &IndexMap<&[u8], u16>,
    cranes: &IndexMap<&[u8], u16>,
    slots: &mut [Option<Slot>],
) -> Result<Entry, PlanKind>
    requires tasks { Finds tasks.now (task_names inst.now) }
    requires cranes { Finds cranes.now (crane_names inst.now) }
    requires all { length slots.old ≡ length inst.now.tasks }
    ensures entry { result ≡ entry_beside inst.now slots.old (fields_of fields.now) }
    ensures given { IfOk result
        (λ entry. slots.new ≡ slice_set slots.old entry.task (Some entry.slot)) }
    ensures range { IfOk result (λ entry. entry.task < length inst.now.tasks) }
{
    let entry = read_entry(fields, inst, tasks, cranes)?;
    if !give(slots, entry) {
        return Err(PlanKind::TaskTwice);
    }
    Ok(entry)
}

/// Gives the task of each record its slot.
fn give_all(
    records: &[ByteRecord],
    inst: &Instance,
    tasks: &IndexMap<&[u8], u16>,
    cranes: &IndexMap<&[u8], u16>,
    slots: &mut [Option<Slot>],
) -> Result<(), PlanFault>
    requires tasks { Finds tasks.now (task_names inst.now) }
    requires cranes { Finds cranes.now (crane_names inst.now) }
    requires most { length inst.now.tasks ≤ MOST_TASKS }
    requires none { slots.old ≡ replicate (length inst.now.tasks) None }
    ensures slots { MatchResult result
        (λ _. slots_of inst.now (map fields_of records.now) ≡ Ok slots.new)
        (λ fault. slots_of inst.now (map fields_of records.now) ≡ Err fault) }
    ensures few { IsOk result → length records.now ≤ length inst.now.tasks }
{
    for (at, fields) in records.iter().enumerate() {
        match next_entry(fields, inst, tasks, cranes, slots) {
            Ok(_) => {}
            Err(kind) => return Err(fault(at, kind)),
        }
    }
    Ok(())
}

/// The slot of each task, where the records give one, by maps that find tasks and cranes by their names.
fn slots_by(
    alloc: Global,
    records: &[ByteRecord],
    inst: &Instance,
    tasks: &IndexMap<&[u8], u16>,
    cranes: &IndexMap<&[u8], u16>,
) -> Result<Vec<Option<Slot>>, PlanError>
    requires tasks { Finds tasks.now (task_names inst.now) }
    requires cranes { Finds cranes.now (crane_names inst.now) }
    requires most { length inst.now.tasks ≤ MOST_TASKS }
    ensures slots { IsReading (λ v. v.items) (slots_of inst.now (map fields_of records.now)) result }
    ensures few { IsOk result → length records.now ≤ length inst.now.tasks }
    ensures all { IfOk result (λ v. length v.items ≡ length inst.now.tasks) }
{
    let mut slots = vec![in alloc; None; inst.tasks().len()]?;
    give_all(records, inst, tasks, cranes, slots.as_mut_slice())?;
    Ok(slots)
}

/// The slot of each task, where the records give one, by the texts that name the tasks.
fn slots_by_texts(
    alloc: Global,
    records: &[ByteRecord],
    inst: &Instance,
    texts: &[TaskText],
) -> Result<Vec<Option<Slot>>, PlanError>
    requires texts { texts.now ≡ map task_text inst.now.tasks }
    requires most { length inst.now.tasks ≤ MOST_TASKS }
    ensures slots { IsReading (λ v. v.items) (slots_of inst.now (map fields_of records.now)) result }
    ensures few { IsOk result → length records.now ≤ length inst.now.tasks }
    ensures all { IfOk result (λ v. length v.items ≡ length inst.now.tasks) }
{
    let tasks = numbers_of(alloc, texts)?;
    let Ok(cranes) = numbers_of(alloc, inst.cranes()) else {
        drop(tasks);
        return Err(OutOfMemory.into());
    };
    let slots = slots_by(alloc, records, inst, &tasks, &cranes);
    drop(cranes);
    drop(tasks);
    slots
}

/// The slot of each task, where the records behind the header give one.
pub(crate) fn read_slots(
    alloc: Global,
    records: &[ByteRecord],
    inst: &Instance,
) -> Result<Vec<Option<Slot>>, PlanError>
    ensures slots { IsReading (λ v. v.items) (slots_of inst.now (map fields_of records.now)) result }
    ensures few { IsOk result → length records.now ≤ length inst.now.tasks }
    ensures all { IfOk result (λ v. length v.items ≡ length inst.now.tasks) }
    ensures most { length inst.now.tasks ≤ MOST_TASKS }
{
    let texts = task_texts(alloc, inst.tasks())?;
    let slots = slots_by_texts(alloc, records, inst, texts.as_slice());
    drop(texts);
    slots
}
