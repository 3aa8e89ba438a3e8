//! Lines of a tree.
ghost use Rattle.std.specs.Prelude.{◌≡◌};
ghost use Rattle.qc_model.specs.Numbers.{most_branchings};
ghost use Rattle.qc_tree.specs.Lines.{most_bytes};

use qc_num::Bound;

/// A line and its line feed have at most so many bytes.
pub const MOST_BYTES: usize = 1200;

/// Reads the file of a tree line by line.
pub type LineReader = qc_lines::LineReader<MOST_BYTES>;

/// How many branchings a tree has at most.
pub const MOST_BRANCHINGS: u32 = 1_000_000;

/// A line of a tree's text. Tasks are numbered from 1, as in the text. The tasks of a chain, a
/// ring or a clash stand in a path beside it.
#[derive(Clone, Copy, PartialEq, Eq)]
pub enum Line {
    /// The title of a tree over the schedules that go one way, upward or downward: it has a part for each.
    Title,
    /// The title of a tree over all feasible schedules, whichever way cranes go: it has one part.
    FreeTitle,
    /// Here begins the part of the upward schedules.
    Up,
    /// Here begins the part of the downward schedules.
    Down,
    /// Branching on the task: which crane does it.
    Assign(u16),
    /// Branching on the pair: which of both comes first.
    Order(u16, u16),
    /// A leaf: a chain of tasks, each forced after the one before.
    Chain,
    /// A leaf: a ring of tasks, each forced after the one before.
    Ring,
    /// A leaf: the newest decision assigns a task out of its crane's reach.
    Reach,
    /// A leaf: the work doesn't fit before this tick.
    Work(u64),
    /// A leaf: tasks of which no two can run together.
    Clash,
    /// The number of branchings, and the tree's value.
    End(u32, Bound),
}

/// The text is no line of a tree.
#[derive(Clone, Copy, Debug, PartialEq, Eq)]
pub struct BadLine;

/// The limits are the numbers of the definitions. Nobody calls it; a wrong limit fails its proof.
fn limits_are_the_definitions()
    ensures bytes { MOST_BYTES ≡ most_bytes }
    ensures branchings { MOST_BRANCHINGS ≡ most_branchings }
{}
