//! What the words ask for.

use crate::commands::CommandName;
use qc_run::{Inputs, MovesAsked, OddsAsked, PlanAsked, RestAsked};

/// The greatest number that a ship and a list are made from.
pub const MOST_NUMBER: u32 = 2_147_483_647;

/// The most runs that odds are asked for with.
pub const MOST_RUNS: u16 = 10_000;

/// The greatest number that draws begin with.
pub const MOST_SEED: u32 = 2_147_483_647;

/// A command that only reads files, and reports.
#[derive(Clone, Copy)]
pub enum Reader {
    /// Whether a plan holds, and what a tree shows of it.
    Check,
    /// What a tree shows.
    CheckTree,
    /// The tasks.
    Tasks,
    /// The motion of a plan.
    Show,
    /// The work sheet of a plan.
    Sheet,
    /// Whether cranes were too near, by a log of reported places.
    Watch,
    /// The course of the work, by a plan and a log of ticks and of tasks that are done.
    Dispatch,
    /// The drawing of a plan.
    Picture,
    /// The figures of each crane of a plan.
    Report,
}

/// What the words ask for, with the names of the files.
#[derive(Clone, Copy)]
pub enum Request<'a> {
    /// A command that only reads, with its files, and which schedules a check is asked about.
    Reads(Reader, Inputs<'a>),
    /// A plan and its tree, that ends no later than the planner's own plan where one is named.
    Plans(PlanAsked<'a>),
    /// A list of the moves between two bay plans.
    Moves(MovesAsked<'a>),
    /// The odds of a plan by what tasks of past calls took.
    Odds(OddsAsked<'a>),
    /// What is left of a plan in the middle of its work, as files of its own.
    Rest(RestAsked<'a>),
    /// A ship and a list made from a number, planned and checked.
    Make {
        number: u32,
        hatches: u16,
        cranes: u16,
    },
    /// What the program does and its commands, or one command.
    Help(Option<CommandName>),
    /// Which program this is.
    Version,
    /// Words that are no command.
    Usage,
}
