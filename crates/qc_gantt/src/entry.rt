//! One record of a plan file.

ghost use Rattle.std.specs.Prelude.{◌≡◌, ◌<◌, length, IfOk};
ghost use Rattle.csv.specs.Records.{fields_of};
ghost use Rattle.qc_gantt.specs.Entries.{entry_in, is_header};
ghost use Rattle.qc_gantt.specs.Names.{Finds, crane_names, task_names};

use crate::fault::PlanKind;
use crate::names::{crane_named, task_named};
use csv::ByteRecord;
use indexmap::IndexMap;
use qc_lines::field;
use qc_model::{Instance, Slot};
use qc_num::plain_number;

// How many digits a start and an end have at most.
const DIGITS: usize = 12;

// A task, counted from 0, and the slot that a record gives it.
#[derive(Clone, Copy, PartialEq, Eq)]
pub(crate) struct Entry {
    pub(crate) task: u16,
    pub(crate) slot: Slot,
}

pub(crate) fn is_header(fields: &ByteRecord) -> bool
    ensures { result ≡ is_header (fields_of fields.now) }
{
    fields.len() == 4
        && field(fields, 0) == b"task".as_slice()
        && field(fields, 1) == b"crane".as_slice()
        && field(fields, 2) == b"start".as_slice()
        && field(fields, 3) == b"end".as_slice()
}

// The entry that the fields of a record write, or the first fault of them. The maps find the tasks and
// the cranes by their names.
pub(crate) fn read_entry(
    fields: &ByteRecord,
    inst: &Instance,
    tasks: &IndexMap<&[u8], u16>,
    cranes: &IndexMap<&[u8], u16>,
) -> Result<Entry, PlanKind>
    requires tasks { Finds tasks.now (task_names inst.now) }
    requires cranes { Finds cranes.now (crane_names inst.now) }
    ensures entry { result ≡ entry_in inst.now (fields_of fields.now) }
    ensures range { IfOk result (λ entry. entry.task < length inst.now.tasks) }
{
    if fields.len() != 4 {
        return Err(PlanKind::Fields);
    }
    let Some(task) = task_named(inst, tasks, field(fields, 0)) else {
        return Err(PlanKind::UnknownTask);
    };
    let Some(crane) = crane_named(inst, cranes, field(fields, 1)) else {
        return Err(PlanKind::UnknownCrane);
    };
    let Some(start) = plain_number(field(fields, 2), DIGITS) else {
        return Err(PlanKind::Number);
    };
    let Some(end) = plain_number(field(fields, 3), DIGITS) else {
        return Err(PlanKind::Number);
    };
    if end != start + inst.tasks()[task as usize].ticks {
        return Err(PlanKind::EndWrong);
    }
    let slot = Slot { crane, start };
    Ok(Entry { task, slot })
}
