//! What is counted to see whether cranes can do what is left.

ghost use Rattle.std.specs.Prelude.{◌<◌, ◌≤◌, ◌^◌, ℕ, length, slice_index};
ghost use Rattle.qc_close.specs.Counts.{AreNear};

use qc_model::Frame;
use qc_num::Tick;

/// What each crane has spent, and the ticks of the tasks that no crane has at each bay, from bay 0.
#[derive(Clone, Copy)]
pub(crate) struct Count<'a> {
    pub(crate) travel: Tick,
    /// The greatest number of which all ticks are multiples.
    pub(crate) step: Tick,
    pub(crate) frames: &'a [Frame],
    pub(crate) left: &'a [Tick],
    ghost slow: { travel < 2 ^ 16 },
    ghost some: { 0 < step },
    ghost few: { length frames.now ≤ 8 },
    ghost near: { AreNear frames.now },
    ghost bays: { (1 ≤ length left.now) × (length left.now < 2 ^ 13) },
    ghost work: { (x : ℕ) → slice_index left.now x < 2 ^ 37 },
}
