//! Why a text wasn't read.

ghost use Rattle.std.specs.Prelude.{◌≡◌};
ghost use Rattle.qc_num.specs.declared.read_error.ReadError.TheVariants.{OutOfMemory};

use std::alloc::{AllocError, AllocFailed};
use std::fmt::Debug;
use thiserror::Error;

/// Why nothing was read from a text: the first fault in it, or want of memory.
#[derive(Debug, Drop, Error)]
#[error_bound(F: Debug)]
pub enum ReadError<F> {
    #[error("{0:?}")]
    Fault(F),
    #[error("out of memory")]
    OutOfMemory,
}

impl<F> From<crate::OutOfMemory> for ReadError<F> {
    ghost from_gives = { λ _ error. error ≡ OutOfMemory };

    fn from(_refused: crate::OutOfMemory) -> ReadError<F> {
        ReadError::OutOfMemory
    }
}

impl<F> From<AllocError> for ReadError<F> {
    ghost from_gives = { λ _ error. error ≡ OutOfMemory };

    fn from(_refused: AllocError) -> ReadError<F> {
        ReadError::OutOfMemory
    }
}

impl<F, T: Drop> From<AllocFailed<T>> for ReadError<F> {
    ghost from_gives = { λ _ error. error ≡ OutOfMemory };

    fn from(_refused: AllocFailed<T>) -> ReadError<F> {
        ReadError::OutOfMemory
    }
}
