//! Faults of a tree's file.
ghost use Rattle.std.specs.Prelude.{◌≡◌, ◌≤◌, length};
ghost use Rattle.qc_tree.specs.Faults.{kind_text};

/// Why a line of a tree's file is refused. For one line the first that applies counts, in this order,
/// but that `After` comes before all others.
#[derive(Clone, Copy, Debug, PartialEq, Eq)]
pub enum TreeKind {
    /// It is longer than 1,200 bytes with its line feed.
    LineTooLong,
    /// The file is at its end, and the line has no line feed yet.
    Cut,
    /// No line of a tree has this text.
    Spelling,
    /// A line of another kind is due here.
    Place,
    /// It names a task that the instance hasn't.
    UnknownTask,
    /// The two tasks, the lower first, are no apart pair of the instance.
    NotApart,
    /// The two tasks, the lower first, don't conflict: where cranes go as they like the order of apart
    /// tasks may be branched on, and of those that can't run at the same time on their cranes.
    NotConflict,
    /// What it branches on is decided: the task has a crane, or one of the pair is forced to wait.
    Decided,
    /// A tree has at most 1,000,000 branchings.
    Branchings,
    /// A task of the chain isn't forced to come after the one before it.
    NotForced,
    /// A task of the ring isn't forced to come after the one before it, or the first after the last.
    NotCycle,
    /// Two of the tasks can run together, one is listed twice, or no crane can do one; where cranes go
    /// as they like also that no starts meet the node, or a decision is out of reach.
    NotClash,
    /// The newest decision doesn't put a task on a crane that can't reach it.
    InReach,
    /// The work isn't shown to be too much before the end.
    WorkShort,
    /// The last line tells another number of branchings, or another value.
    Counts,
    /// There is more behind the last line.
    After,
}

impl TreeKind {
    /// The kind as reports print it.
    pub fn text(self) -> &'static str
        ensures text { result.now ≡ kind_text self }
        ensures short { length result.now ≤ 11 }
    {
        match self {
            TreeKind::LineTooLong => "LineTooLong",
            TreeKind::Cut => "Cut",
            TreeKind::Spelling => "Spelling",
            TreeKind::Place => "Place",
            TreeKind::UnknownTask => "UnknownTask",
            TreeKind::NotApart => "NotApart",
            TreeKind::NotConflict => "NotConflict",
            TreeKind::Decided => "Decided",
            TreeKind::Branchings => "Branchings",
            TreeKind::NotForced => "NotForced",
            TreeKind::NotCycle => "NotCycle",
            TreeKind::NotClash => "NotClash",
            TreeKind::InReach => "InReach",
            TreeKind::WorkShort => "WorkShort",
            TreeKind::Counts => "Counts",
            TreeKind::After => "After",
        }
    }
}

/// The first fault of a tree's file.
#[derive(Clone, Copy, Debug, PartialEq, Eq)]
pub struct TreeFault {
    /// The line, from 1.
    pub line: u32,
    pub kind: TreeKind,
}
