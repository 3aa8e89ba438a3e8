//! What may be wrong with a log of reported places.

ghost use Rattle.std.specs.Prelude.{◌≡◌, ◌≤◌, length};

use qc_num::ReadError;

/// What is wrong with a line of a log: the first of these that applies.
#[derive(Clone, Copy, Debug, PartialEq, Eq)]
pub enum WatchKind {
    /// There are more than 200,000 lines; told of the first one too many.
    TooMany,
    /// The line isn't a time, a name and a place with single spaces between them and a line feed behind.
    Line,
    /// No crane has the name.
    UnknownCrane,
    /// An earlier report of the crane has a time that isn't lower.
    TimeBack,
}

impl WatchKind {
    ghost use Rattle.qc_watch.specs.Faults.{kind_text};

    /// The kind as reports print it.
    pub fn text(self) -> &'static str
        ensures text { result.now ≡ kind_text self }
        ensures short { length result.now ≤ 12 }
    {
        match self {
            WatchKind::TooMany => "TooMany",
            WatchKind::Line => "Line",
            WatchKind::UnknownCrane => "UnknownCrane",
            WatchKind::TimeBack => "TimeBack",
        }
    }
}

/// The first fault of a log.
#[derive(Clone, Copy, Debug, PartialEq, Eq)]
pub struct WatchFault {
    /// The line, from 1.
    pub line: u32,
    pub kind: WatchKind,
}

/// Why no log was read.
pub type WatchError = ReadError<WatchFault>;
