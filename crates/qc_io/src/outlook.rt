//! What is told of a search that begins.

use qc_num::Tick;

/// What is known of a search before its first branching.
#[derive(Clone, Copy)]
pub struct Outlook {
    /// How many branchings it may make.
    pub limit: u32,
    /// When the plan ends that it begins with, in ticks; none where there is no such plan.
    pub end: Option<Tick>,
    /// Before which end no plan is done that it looks for, in ticks; none where that isn't known.
    pub bound: Option<Tick>,
}
