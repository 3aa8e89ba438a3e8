//! What may be wrong with a plan file.

ghost use Rattle.std.specs.Prelude.{◌≡◌, ◌≤◌, length};
ghost use Rattle.qc_num.specs.declared.read_error.ReadError.TheVariants.{Fault};
ghost use Rattle.qc_gantt.specs.Faults.{kind_text};

use qc_num::ReadError;

/// What is wrong with a record of a plan file: the first of these that applies.
#[derive(Clone, Copy, Debug, PartialEq, Eq)]
pub enum PlanKind {
    /// The first record isn't the header, or there is no record.
    Header,
    /// The record hasn't four fields.
    Fields,
    /// No task of the instance has the name.
    UnknownTask,
    /// No crane of the instance has the name.
    UnknownCrane,
    /// The start or the end isn't plain decimal of 1 to 12 digits.
    Number,
    /// The end isn't the start plus the task's length.
    EndWrong,
    /// An earlier record has the task.
    TaskTwice,
    /// A task has no record; told of the record behind the last one.
    TaskMissing,
}

impl PlanKind {
    /// The kind as reports print it.
    pub fn text(self) -> &'static str
        ensures text { result.now ≡ kind_text self }
        ensures short { length result.now ≤ 12 }
    {
        match self {
            PlanKind::Header => "Header",
            PlanKind::Fields => "Fields",
            PlanKind::UnknownTask => "UnknownTask",
            PlanKind::UnknownCrane => "UnknownCrane",
            PlanKind::Number => "Number",
            PlanKind::EndWrong => "EndWrong",
            PlanKind::TaskTwice => "TaskTwice",
            PlanKind::TaskMissing => "TaskMissing",
        }
    }
}

/// The first fault of a plan file.
#[derive(Clone, Copy, Debug, PartialEq, Eq)]
pub struct PlanFault {
    /// The record, from 1: the header is the first.
    pub number: u32,
    pub kind: PlanKind,
}

/// Why no plan was read.
pub type PlanError = ReadError<PlanFault>;

impl From<PlanFault> for PlanError {
    ghost from_gives = { λ fault error. error ≡ Fault fault };

    fn from(fault: PlanFault) -> PlanError {
        PlanError::Fault(fault)
    }
}
