//! What a search branches on.
ghost use Rattle.std.specs.Prelude.{◌≡◌};
ghost use Rattle.qc_search.specs.Walk.{first_of};

use qc_model::Decision;

/// A branching.
#[derive(Clone, Copy, PartialEq, Eq)]
pub(crate) enum Branch {
    /// On the crane of a task.
    Task(u16),
    /// On which of two tasks is first.
    Pair(u16, u16),
}

impl Branch {
    /// The decision of its first child.
    pub(crate) fn first_child(self) -> Decision
        ensures { result ≡ first_of self }
    {
        match self {
            Branch::Task(task) => Decision::Assign(task, 0),
            Branch::Pair(first, second) => Decision::Order(first, second),
        }
    }
}
