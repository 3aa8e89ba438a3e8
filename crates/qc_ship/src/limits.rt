//! The limits of a ship file that an instance has no use for.

/// The greatest number of a hatch.
pub const GREATEST_HATCH: u16 = 998;

/// The most bays that neighbouring cranes keep free between them, where hatches stand one bay apart.
pub const MOST_MARGIN: u32 = 20;

/// The most ticks of a move, or of a hatch cover.
pub const MOST_MOVE_TICKS: u32 = 10_000;

/// The most pairs of hatches that aren't worked at the same time.
pub const MOST_HATCH_PAIRS: usize = 100;

/// The most pairs of tasks of which the planner says that the first ends before the second starts.
pub const MOST_NAME_PAIRS: usize = 240;

/// The most tasks of which the planner says before which tick they don't start.
pub const MOST_NAME_TICKS: usize = 240;
