//! How far a search has come.
ghost use Rattle.std.specs.Prelude.{◌≡◌};
ghost use Rattle.qc_search.specs.Progress.{begun, cutoff};

use qc_model::{Direction, Schedule};
use qc_num::{Bound, Path};

/// What a search carries through both parts of its tree.
#[derive(Drop)]
pub(crate) struct Progress {
    /// How many branchings it may write.
    pub(crate) limit: u32,
    /// How many it has written.
    pub(crate) branched: u32,
    /// The lower bound so far: the least value of the leaves written.
    pub(crate) bound: Bound,
    /// The end that it aims at: what can't end before it isn't searched.
    pub(crate) aim: Bound,
    /// The end of the incumbent; `Never` where there is none yet.
    pub(crate) incumbent_end: Bound,
    /// The part in which the incumbent was met, or to which a given one belongs.
    pub(crate) way: Direction,
    /// The incumbent: the best schedule that is known, as it is seen in that part.
    pub(crate) incumbent: Schedule,
    /// Room for the tasks of a leaf.
    pub(crate) path: Path,
}

impl Progress {
    /// The end at which a node is closed: the lesser of the aim and of the incumbent's end.
    pub(crate) fn cutoff(&self) -> Bound
        ensures { result ≡ cutoff self.now }
    {
        self.aim.min(self.incumbent_end)
    }
}

/// The progress before the first line, with room for an incumbent and for a leaf's tasks.
pub(crate) fn first_progress(incumbent: Schedule, path: Path, limit: u32) -> Progress
    ensures { result ≡ begun limit incumbent path }
{
    Progress {
        limit,
        branched: 0,
        bound: Bound::Never,
        aim: Bound::Never,
        incumbent_end: Bound::Never,
        way: Direction::Up,
        incumbent,
        path,
    }
}
