//! What a tree shows, and why none was read.
ghost use Rattle.std.specs.Prelude.{◌≡◌};

use qc_num::{Bound, OutOfMemory};
use qc_tree::TreeFault;
use std::alloc::AllocError;
use thiserror::Error;

/// What a tree shows.
#[derive(Clone, Copy, PartialEq, Eq)]
pub struct Replayed {
    /// No schedule that cranes of this turn may follow ends before this tick; `Never`: there is none.
    pub bound: Bound,
    /// How many branchings the tree has, at most 1,000,000.
    pub branched: u32,
}

/// Why no tree was read.
#[derive(Debug, Drop, Error)]
pub enum ReplayError {
    #[error("the file could not be read")]
    ReadFault,
    #[error("{0:?}")]
    Tree(TreeFault),
    #[error("out of memory")]
    OutOfMemory,
}

impl From<OutOfMemory> for ReplayError {
    ghost use Rattle.qc_replay.specs.declared.fault.ReplayError.TheVariants.{OutOfMemory};

    ghost from_gives = { λ _ error. error ≡ OutOfMemory };

    fn from(_refused: OutOfMemory) -> ReplayError {
        ReplayError::OutOfMemory
    }
}

impl From<AllocError> for ReplayError {
    ghost use Rattle.qc_replay.specs.declared.fault.ReplayError.TheVariants.{OutOfMemory};

    ghost from_gives = { λ _ error. error ≡ OutOfMemory };

    fn from(_refused: AllocError) -> ReplayError {
        ReplayError::OutOfMemory
    }
}
