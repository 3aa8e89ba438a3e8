//! What a plan comes to whose drawing or figures are asked for.

use qc_figures::Tracks;
use qc_model::Direction;
use qc_num::Bytes;
use qc_run::Broken;
use qc_sheet_command::Load;

/// A feasible plan, with the way in which it goes where it goes one, and the waypoints of its cranes.
pub struct Planned {
    pub load: Load,
    pub way: Option<Direction>,
    pub tracks: Tracks,
}

/// By hand, so that a plan is let go by one call wherever it is held, and not piece by piece.
impl Drop for Planned {
    fn drop(self) {
        let Planned {
            load: _,
            way: _,
            tracks: _,
        } = self;
    }
}

/// What a plan that is judged comes to.
#[derive(Drop)]
pub enum Motion {
    /// The plan breaks a rule other than that of one way.
    Broken(Broken),
    /// The plan is feasible.
    Planned(Planned),
}

/// What is asked for of a plan.
#[derive(Clone, Copy, PartialEq, Eq)]
pub enum Print {
    /// What each crane does with the ticks from 0 to the end.
    Figures,
    /// A time-space diagram.
    Picture,
}

/// What is printed of a plan.
#[derive(Drop)]
pub enum Printed {
    /// The plan breaks a rule other than that of one way.
    Broken(Broken),
    /// A text that tells of the plan.
    Text(Bytes),
}
