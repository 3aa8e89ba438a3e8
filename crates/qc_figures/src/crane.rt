//! The figures of a crane.

ghost use Rattle.std.specs.Prelude.{◌≡◌};
ghost use Rattle.qc_figures.specs.Figures.{figure_list};

use qc_num::Tick;

/// What a crane does with the ticks of a plan. `not_ready`, `work`, `moving`, `waiting` and `idle` make up
/// all ticks from 0 to the end of the plan.
#[derive(Clone, Copy, PartialEq, Eq)]
pub struct Figures {
    pub tasks: u16,
    /// Container moves.
    pub moves: u32,
    /// Ticks until it is ready.
    pub not_ready: Tick,
    /// Ticks of its tasks.
    pub work: Tick,
    /// From when it is ready to its last end: ticks in which it goes.
    pub moving: Tick,
    /// And ticks in which it stands without a task.
    pub waiting: Tick,
    /// Ticks from its last end to the end of the plan.
    pub idle: Tick,
    /// Its last end, and 0 where it has no task.
    pub end: Tick,
    /// Its share of the work of all cranes, in tenths of a percent, rounded down.
    pub share: Tick,
}

impl Figures {
    /// The figures in the order in which they are told.
    pub fn list(&self) -> [Tick; 9]
        ensures { result ≡ figure_list self.now }
    {
        [
            Tick::from(self.tasks),
            Tick::from(self.moves),
            self.not_ready,
            self.work,
            self.moving,
            self.waiting,
            self.idle,
            self.end,
            self.share,
        ]
    }
}
