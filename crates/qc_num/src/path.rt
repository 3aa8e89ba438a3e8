//! Lists of task numbers.

use smallvec::SmallVec;
use std::alloc::Global;

/// A list of task numbers, as of a chain or of a ring. The first 32 take no memory.
///
/// What fills one takes no memory either, where there is room for all tasks.
pub type Path = SmallVec<u16, 32, Global>;
