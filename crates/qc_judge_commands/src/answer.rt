//! What a plan that is judged comes to.

use qc_model::{Direction, Instance, Schedule};
use qc_motion::Track;
use qc_num::Tick;
use qc_run::Broken;

/// What is told of a plan that holds.
#[derive(Clone, Copy, PartialEq, Eq)]
pub struct Compared {
    /// When the plan's last task ends, in ticks.
    pub end: Tick,
    /// No schedule that cranes may follow ends before this tick, as the tree shows.
    pub bound: Tick,
}

/// A plan that holds, whose motion is to be told.
#[derive(Drop)]
pub struct Shown {
    pub inst: Instance,
    pub sched: Schedule,
    /// Where the waypoints of one crane after the other are put.
    pub track: Track,
    /// The way in which the plan goes.
    pub direction: Direction,
}

/// What a check of a plan comes to.
#[derive(Drop)]
pub enum Judged {
    /// The plan breaks a rule.
    Broken(Broken),
    /// The plan holds; its end and the tree's value are to be printed.
    Compared(Compared),
}

/// What a plan that is shown comes to.
#[derive(Drop)]
pub enum Showing {
    /// The plan breaks a rule.
    Broken(Broken),
    /// The plan holds; its motion is to be printed.
    Shown(Shown),
}
