//! How far a task is.

ghost use Rattle.std.specs.Prelude.{◌≡◌};
ghost use Rattle.qc_dispatch.specs.Course.{end_in, is_running, is_waiting, start_in};

use qc_num::Tick;

/// How far a task is.
#[derive(Clone, Copy, PartialEq, Eq)]
pub enum Stage {
    /// It has no start.
    Waiting,
    /// It runs since this tick.
    Running(Tick),
    /// It ran from the one tick to the other.
    Ended(Tick, Tick),
}

impl Stage {
    /// The start; `None` exactly where it has none.
    pub(crate) fn start(self) -> Option<Tick>
        ensures { result ≡ start_in self }
    {
        match self {
            Stage::Waiting => None,
            Stage::Running(start) => Some(start),
            Stage::Ended(start, _) => Some(start),
        }
    }

    /// The end; `None` exactly where it has none.
    pub(crate) fn end(self) -> Option<Tick>
        ensures { result ≡ end_in self }
    {
        match self {
            Stage::Waiting => None,
            Stage::Running(_) => None,
            Stage::Ended(_, end) => Some(end),
        }
    }

    pub(crate) fn is_waiting(self) -> bool
        ensures { result ≡ is_waiting self }
    {
        match self {
            Stage::Waiting => true,
            Stage::Running(_) => false,
            Stage::Ended(_, _) => false,
        }
    }

    pub(crate) fn is_running(self) -> bool
        ensures { result ≡ is_running self }
    {
        match self {
            Stage::Waiting => false,
            Stage::Running(_) => true,
            Stage::Ended(_, _) => false,
        }
    }
}
