//! What a plan comes to.

use qc_freemove::FreeTrack;
use qc_model::{Direction, Instance, Schedule};
use qc_motion::Track;
use qc_num::Tick;
use qc_run::Broken;
use qc_search::Kind;

/// How the cranes of a plan go, and where the waypoints of one after the other are put.
#[derive(Drop)]
pub enum Motion {
    /// They go one way.
    OneWay { direction: Direction, track: Track },
    /// They go as they like.
    Free { track: FreeTrack },
}

/// What is told of a search that knows a schedule.
#[derive(Drop)]
pub struct Planned {
    pub inst: Instance,
    /// The schedule, as it stands in the plan's file.
    pub sched: Schedule,
    /// How its cranes go.
    pub motion: Motion,
    /// How the search came out: `Optimal` or `Budget`.
    pub kind: Kind,
    /// When the plan's last task ends, in ticks.
    pub end: Tick,
    /// No schedule that is asked about ends before this tick.
    pub bound: Tick,
    /// The tree's number of branchings.
    pub branched: u64,
    /// When the schedule ends that the search began with, in ticks; none where it was given none.
    pub given: Option<Tick>,
}

/// What a plan comes to once its files are read.
#[derive(Drop)]
pub enum PlanAnswer {
    /// A file couldn't be made or written.
    WriteFault,
    /// The planner's own plan breaks a rule.
    Broken(Broken),
    /// The search's tree and the plan of the best schedule that it knows are written.
    Planned(Planned),
    /// The search's tree is written. It knows no schedule, and none that is asked about ends before `bound`, in ticks.
    Unplanned { bound: Tick, branched: u64 },
    /// The search's tree is written. There is no schedule of those that are asked about.
    Infeasible { branched: u64 },
}
