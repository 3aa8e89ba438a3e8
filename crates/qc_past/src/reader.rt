//! Reading a file of past tasks.

ghost use Rattle.std.specs.Prelude.{◌≡◌, ◌+◌, ◌<◌, ◌≤◌, [], length, map, All, IfOk};
ghost use Rattle.std.specs.List.{list_all, list_any};
ghost use Rattle.csv.specs.Records.{fields_of};
ghost use Rattle.qc_num.specs.Reading.{IsReading, each};
ghost use Rattle.qc_num.specs.declared.read_error.ReadError.TheVariants.{Fault};
ghost use Rattle.qc_past.specs.Past.{IsPastTask, is_of, most_past};
ghost use Rattle.qc_past.specs.PastFile.{beside, ends_with, next_task, past_in, task_after, tasks_of};

use crate::fault::{PastError, PastFault, PastKind};
use crate::fields::is_header;
use crate::past::{MOST_PAST, Past};
use crate::task::PastTask;
use csv::ByteRecord;
use qc_lines::first_records;
use qc_model::MOST_TASKS;
use std::alloc::Global;

// The header, the most tasks, and one record more that tells a longer file.
const RECORDS: usize = MOST_PAST + 2;

/// Whether each task is of a call.
fn are_of(call: &[u8], tasks: &[PastTask]) -> bool
    ensures { result ≡ list_all (is_of call.now) tasks.now }
{
    tasks.iter().all(|task| call == task.call.as_bytes())
}

/// Whether some task is of a call.
fn has_call(call: &[u8], tasks: &[PastTask]) -> bool
    ensures { result ≡ list_any (is_of call.now) tasks.now }
{
    tasks.iter().any(|task| call == task.call.as_bytes())
}

/// Whether there are so many tasks at least, and the last ones are of a call.
fn ends_with(count: usize, tasks: &[PastTask], call: &[u8]) -> bool
    ensures { result ≡ ends_with count tasks.now call.now }
{
    count <= tasks.len() && are_of(call, &tasks[tasks.len() - count..])
}

/// The task after those before it, where its call isn't full, and is that of the last one or a new one.
fn beside(earlier: &[PastTask], task: PastTask) -> Result<PastTask, PastKind>
    ensures task { result ≡ beside earlier.now task }
    ensures same { IfOk result (λ kept. kept ≡ task) }
{
    if ends_with(MOST_TASKS as usize, earlier, task.call.as_bytes()) {
        return Err(PastKind::CallFull);
    }
    if !ends_with(1, earlier, task.call.as_bytes()) && has_call(task.call.as_bytes(), earlier) {
        return Err(PastKind::CallTwice);
    }
    Ok(task)
}

/// The task of a record after those of all records before it.
fn task_after(earlier: &[PastTask], fields: &ByteRecord) -> Result<PastTask, PastKind>
    ensures task { result ≡ task_after earlier.now (fields_of fields.now) }
    ensures ranges { IfOk result IsPastTask }
{
    if earlier.len() >= MOST_PAST {
        return Err(PastKind::TooMany);
    }
    let task = PastTask::read(fields)?;
    beside(earlier, task)
}

/// The task of the record behind the header and those of these tasks.
fn next_task(earlier: &[PastTask], fields: &ByteRecord) -> Result<PastTask, PastFault>
    requires { length earlier.now ≤ most_past }
    ensures task { result ≡ next_task earlier.now (fields_of fields.now) }
    ensures few { IfOk result (λ _. length earlier.now < most_past) }
    ensures ranges { IfOk result IsPastTask }
{
    match task_after(earlier, fields) {
        Ok(task) => Ok(task),
        Err(kind) => Err(PastFault {
            number: earlier.len() as u32 + 2,
            kind,
        }),
    }
}

/// The tasks of the records behind the header.
fn read_tasks(alloc: Global, records: &[ByteRecord]) -> Result<Vec<PastTask>, PastError>
    ensures tasks { IsReading (λ tasks. tasks.items) (each next_task [] (map fields_of records.now)) result }
    ensures ranges { IfOk result (λ tasks. All IsPastTask tasks.items) }
{
    let mut tasks = Vec::new(alloc);
    let mut rest = records;
    while let Some((fields, behind)) = rest.split_first() {
        match next_task(tasks.as_slice(), fields) {
            Ok(task) => {
                if tasks.push(task).is_err() {
                    drop(tasks);
                    return Err(PastError::OutOfMemory);
                }
            }
            Err(fault) => {
                drop(tasks);
                return Err(fault.into());
            }
        }
        rest = behind;
    }
    Ok(tasks)
}

/// The past tasks of the records behind the header, of which there is one at least.
fn read_past_tasks(alloc: Global, records: &[ByteRecord]) -> Result<Past, PastError>
    ensures { IsReading (λ past. past) (tasks_of (map fields_of records.now)) result }
{
    let tasks = read_tasks(alloc, records)?;
    if tasks.as_slice().is_empty() {
        drop(tasks);
        return Err(fault(2, PastKind::Empty));
    }
    Ok(Past::of(alloc, tasks)?)
}

/// The past tasks of a file, or the first fault of its first faulty record. A byte-order mark at the start is
/// dropped, and fields may be quoted, as `csv` reads them.
pub fn read_past(alloc: Global, text: &[u8]) -> Result<Past, PastError>
    ensures { IsReading (λ past. past) (past_in text.now) result }
{
    let records = first_records(alloc, text, RECORDS)?;
    let Some((header, records)) = records.as_slice().split_first() else {
        return Err(fault(1, PastKind::Header));
    };
    if !is_header(header) {
        return Err(fault(1, PastKind::Header));
    }
    read_past_tasks(alloc, records)
}

/// The fault of a record.
fn fault(number: u32, kind: PastKind) -> PastError
    ensures { result ≡ Fault (record { number = number; kind = kind }) }
{
    PastError::Fault(PastFault { number, kind })
}
