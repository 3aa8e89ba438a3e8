//! One arc.

use qc_num::Tick;

/// An arc from one node to another. Nodes are numbered from 0.
#[derive(Clone, Copy, PartialEq, Eq)]
pub struct Edge {
    /// The node that it leaves.
    pub from: u16,
    /// The node that it enters.
    pub to: u16,
    /// Its length in ticks.
    pub len: Tick,
}
