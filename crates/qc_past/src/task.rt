//! One past task.

ghost use Rattle.std.specs.Prelude.{◌≡◌, IfOk};
ghost use Rattle.csv.specs.Records.{fields_of};
ghost use Rattle.qc_past.specs.Past.{IsPastTask};
ghost use Rattle.qc_past.specs.Tasks.{task_in};

use crate::call::CallName;
use crate::fault::PastKind;
use crate::fields::{read_length, read_phase};
use csv::ByteRecord;
use qc_lines::field;
use qc_model::Phase;

/// How many times as long as planned a task may really have taken.
const MOST_TIMES: u64 = 100;

/// A task that was worked in an earlier call.
#[derive(Drop)]
pub struct PastTask {
    pub call: CallName,
    /// The phase; `None` stands for any.
    pub phase: Option<Phase>,
    /// How long it should have taken, in a unit of the file's own, from 1 to 999,999,999.
    pub planned: u32,
    /// How long it took in the same unit, from 1 to 999,999,999: at most 100 times the planned length.
    pub real: u32,
}

impl PastTask {
    /// The task that the fields of a record write, or the first fault of them.
    pub(crate) fn read(fields: &ByteRecord) -> Result<PastTask, PastKind>
        ensures task { result ≡ task_in (fields_of fields.now) }
        ensures ranges { IfOk result IsPastTask }
    {
        if fields.len() != 4 {
            return Err(PastKind::Fields);
        }
        let Some(call) = CallName::of(field(fields, 0)) else {
            return Err(PastKind::Call);
        };
        let phase = read_phase(field(fields, 1))?;
        let planned = read_length(field(fields, 2))?;
        let real = read_length(field(fields, 3))?;
        if u64::from(real) > MOST_TIMES * u64::from(planned) {
            return Err(PastKind::TooLong);
        }
        Ok(PastTask {
            call,
            phase,
            planned,
            real,
        })
    }
}
