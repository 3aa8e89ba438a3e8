//! The lines of nodes.
ghost use Rattle.std.specs.Prelude.{◌≡◌, ◌<◌, All};
ghost use Rattle.qc_io.specs.Writes.{Writes};
ghost use Rattle.qc_close.specs.Model.{reach, most_tasks};
ghost use Rattle.qc_tree.specs.Trees.{in_file, leaf_text, sign_text};
ghost use Rattle.qc_search.specs.Lines.{IsNamed, IsWritable, leaf_line, leaf_of};
ghost use Rattle.qc_search.specs.Walk.{sign_of};

use crate::branch::Branch;
use qc_bounds::LeafKind;
use qc_io::{Sink, WriteFault};
use qc_num::Path;
use qc_tree::{Line, write_line};

/// Numbers tasks as files do, from 1.
fn number_from_one(tasks: &mut [u16])
    requires { All (λ j. j < most_tasks) tasks.old }
    ensures { tasks.new ≡ in_file tasks.old }
{
    for task in tasks.iter_mut() {
        *task += 1;
    }
}

/// The line of a leaf.
fn leaf_line(leaf: LeafKind) -> Line
    ensures { result ≡ leaf_line leaf }
{
    match leaf {
        LeafKind::Chain => Line::Chain,
        LeafKind::Ring => Line::Ring,
        LeafKind::Work(end) => Line::Work(end),
        LeafKind::Clash(_) => Line::Clash,
    }
}

/// Writes the line of a leaf. The tasks in the path are left as in the file.
pub(crate) fn put_leaf<K: Sink>(
    leaf: LeafKind,
    path: &mut Path,
    sink: &mut K,
) -> Result<(), WriteFault>
    requires { IsWritable leaf path.old.items }
    ensures writes { Writes (K.view sink.old) (K.view sink.new)
        (leaf_text (leaf_of leaf path.old.items)) result }
    ensures room { path.new.capacity ≡ path.old.capacity }
{
    number_from_one(path.as_mut_slice());
    write_line(&leaf_line(leaf), path, sink)
}

/// Writes the line of a node that is out of reach.
pub(crate) fn put_reach<K: Sink>(path: &Path, sink: &mut K) -> Result<(), WriteFault>
    ensures { Writes (K.view sink.old) (K.view sink.new) (leaf_text reach) result }
{
    write_line(&Line::Reach, path, sink)
}

/// Writes the line of a branching.
pub(crate) fn put_branch<K: Sink>(
    branch: Branch,
    path: &Path,
    sink: &mut K,
) -> Result<(), WriteFault>
    requires { IsNamed branch }
    ensures { Writes (K.view sink.old) (K.view sink.new) (sign_text (sign_of branch)) result }
{
    let line = match branch {
        Branch::Task(task) => Line::Assign(task + 1),
        Branch::Pair(first, second) => Line::Order(first + 1, second + 1),
    };
    write_line(&line, path, sink)
}
