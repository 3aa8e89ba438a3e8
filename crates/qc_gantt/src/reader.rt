//! Reading a plan file.

ghost use Rattle.std.specs.Prelude.{◌≡◌, ◌≤◌, length, map, IfOk};
ghost use Rattle.csv.specs.Records.{fields_of};
ghost use Rattle.qc_model.specs.Judge.{IsJudgeable};
ghost use Rattle.qc_gantt.specs.Plan.{all_given, plan_in, plan_of, schedule_of};
ghost use Rattle.qc_num.specs.Reading.{IsReading};
ghost use Rattle.qc_num.specs.declared.read_error.ReadError.TheVariants.{Fault};
ghost use Rattle.qc_gantt.specs.declared.fault.PlanKind.TheVariants.{Header};

use crate::entry::is_header;
use crate::fault::{PlanError, PlanFault, PlanKind};
use crate::slots::{fault, read_slots};
use csv::ByteRecord;
use qc_lines::first_records;
use qc_model::{Instance, MOST_TASKS, Schedule, Slot};
use qc_num::OutOfMemory;
use std::alloc::Global;

/// The schedule of these slots, where each task has one.
fn all_given(alloc: Global, slots: &[Option<Slot>]) -> Result<Option<Schedule>, OutOfMemory>
    requires { length slots.now ≤ MOST_TASKS }
    ensures { IfOk result (λ sched. sched ≡ all_given slots.now) }
{
    let mut sched = Schedule::new(alloc, slots.len() as u16)?;
    for (task, slot) in slots.iter().enumerate() {
        let Some(slot) = slot else {
            return Ok(None);
        };
        sched.set(task as u16, *slot);
    }
    Ok(Some(sched))
}

/// The schedule of the records behind the header.
fn read_schedule(
    alloc: Global,
    records: &[ByteRecord],
    inst: &Instance,
) -> Result<Schedule, PlanError>
    ensures { IsReading (λ sched. sched)
        (schedule_of inst.now (map fields_of records.now)) result }
{
    let slots = read_slots(alloc, records, inst)?;
    match all_given(alloc, slots.as_slice())? {
        Some(sched) => Ok(sched),
        None => Err(PlanError::Fault(fault(records.len(), PlanKind::TaskMissing))),
    }
}

/// The schedule of a list of records, of which the first is the header.
fn read_records(
    alloc: Global,
    records: &[ByteRecord],
    inst: &Instance,
) -> Result<Schedule, PlanError>
    ensures { IsReading (λ sched. sched) (plan_of inst.now (map fields_of records.now)) result }
{
    let Some((header, records)) = records.split_first() else {
        return Err(no_header());
    };
    if !is_header(header) {
        return Err(no_header());
    }
    read_schedule(alloc, records, inst)
}

/// The schedule of a plan file, or the first fault of its first faulty record. Records may come in any
/// order of the tasks. A byte-order mark at the start is dropped, and fields may be quoted, as `csv`
/// reads them.
pub fn read_plan(alloc: Global, text: &[u8], inst: &Instance) -> Result<Schedule, PlanError>
    ensures plan { IsReading (λ sched. sched) (plan_in inst.now text.now) result }
    ensures judgeable { IfOk result (λ sched. IsJudgeable inst.now sched) }
{
    // The header, a record for each task, and one more, which has a fault.
    let records = first_records(alloc, text, inst.tasks().len() + 2)?;
    read_records(alloc, records.as_slice(), inst)
}

/// The fault of a plan that doesn't begin with its header.
fn no_header() -> PlanError
    ensures { result ≡ Fault (record { number = 1; kind = Header }) }
{
    PlanError::Fault(PlanFault {
        number: 1,
        kind: PlanKind::Header,
    })
}
