//! What may be wrong with a log of ticks, of tasks that are done, and of what tasks need still.

ghost use Rattle.std.specs.Prelude.{◌≡◌, ◌≤◌, length};

use qc_num::ReadError;

/// What is wrong with a line of a log: the first of these that applies.
#[derive(Clone, Copy, Debug, PartialEq, Eq)]
pub enum DispatchKind {
    /// There are more than 100,000 lines; told of the first one too many.
    TooMany,
    /// The line is none of `tick N`, `done TASK` and `left TASK N`, with a line feed behind.
    Line,
    /// No task has the name.
    UnknownTask,
    /// The task has no start, or an end already.
    NotRunning,
}

impl DispatchKind {
    ghost use Rattle.qc_dispatch.specs.Faults.{kind_text};

    /// The kind as reports print it.
    pub fn text(self) -> &'static str
        ensures text { result.now ≡ kind_text self }
        ensures short { length result.now ≤ 12 }
    {
        match self {
            DispatchKind::TooMany => "TooMany",
            DispatchKind::Line => "Line",
            DispatchKind::UnknownTask => "UnknownTask",
            DispatchKind::NotRunning => "NotRunning",
        }
    }
}

/// The first fault of a log.
#[derive(Clone, Copy, Debug, PartialEq, Eq)]
pub struct DispatchFault {
    /// The line, from 1.
    pub line: u32,
    pub kind: DispatchKind,
}

/// Why no log was followed.
pub type DispatchError = ReadError<DispatchFault>;
