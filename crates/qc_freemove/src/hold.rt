//! What holds a crane at a place.

ghost use Rattle.std.specs.Prelude.{◌≡◌, ◌≤◌};
ghost use Rattle.qc_freemove.specs.FreeSweep.{IsHeldPlace, IsNearHold, held, last_half};

/// Where a task or a berth has a crane, and from which half tick to which. Before and after it lets the crane
/// go as fast as it can.
#[derive(Clone, Copy)]
pub(crate) struct Hold {
    /// Twice the bay times the ticks of travel per bay.
    pub(crate) place: i64,
    pub(crate) from: u64,
    pub(crate) until: u64,
}

impl Hold {
    /// The place to which it brings the crane at a half tick.
    pub(crate) fn at(self, at: u64) -> i64
        requires near { IsNearHold self }
        requires at { at ≤ last_half }
        ensures place { result ≡ held self at }
        ensures near { IsHeldPlace result }
    {
        let off = self
            .from
            .saturating_sub(at)
            .max(at.saturating_sub(self.until));
        self.place - off as i64
    }
}
