//! What a trial comes to.

use qc_num::{Bound, Tick};
use qc_search::Kind;

/// What a check says of a plan and a tree, or of a tree alone.
#[derive(Clone, Copy, PartialEq, Eq)]
pub enum Verdict {
    /// The plan holds, and the tree shows that none ends earlier.
    Optimal,
    /// The plan holds, and the tree doesn't show that.
    Weaker,
    /// There is no plan; the tree shows an end that no schedule beats.
    Bound,
    /// There is no plan, and the tree shows that there is none.
    Infeasible,
    /// The plan breaks a rule, or the file of the plan or of the tree holds none.
    Broken,
}

/// What is told of a ship and a list that were made, planned and checked.
#[derive(Clone, Copy)]
pub struct Made {
    /// The number that both were made from.
    pub number: u32,
    pub hatches: u16,
    pub cranes: u16,
    /// The number of moves in the list.
    pub rows: u64,
    /// The number of tasks.
    pub tasks: u64,
    /// The length of all tasks together, in ticks.
    pub work: Tick,
    /// How the search came out.
    pub kind: Kind,
    /// When the plan's last task ends, in ticks; none where no schedule was met.
    pub end: Option<Tick>,
    /// No schedule that goes one way ends earlier.
    pub bound: Bound,
    /// What the check says of the plan and the tree.
    pub verdict: Verdict,
}
