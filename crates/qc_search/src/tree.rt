//! The lines of a whole tree.
ghost use Rattle.std.specs.Prelude.{◌≡◌, ◌≤◌, List, Option, [], ◌∷◌, length};
ghost use Rattle.qc_io.specs.Writes.{Writes};
ghost use Rattle.qc_close.specs.Model.{Slot, OneWay, Free, most_branchings, most_tasks, mirror};
ghost use Rattle.qc_num.specs.Paths.{HasRoom};
ghost use Rattle.qc_tree.specs.declared.line.Line.TheVariants.{End};
ghost use Rattle.qc_tree.specs.Trees.{whole_line};
ghost use Rattle.qc_search.specs.Lines.{part_line};
ghost use Rattle.qc_search.specs.Progress.{IsProgress, IsSoon, WritesNodes, WritesTree};

use crate::part::search_part;
use crate::place::Node;
use crate::progress::Progress;
use qc_io::{Sink, WriteFault};
use qc_model::Direction;
use qc_tree::{Line, write_line};

/// Writes the line at the beginning of a part.
fn put_way<K: Sink>(way: Direction, progress: &Progress, sink: &mut K) -> Result<(), WriteFault>
    ensures { Writes (K.view sink.old) (K.view sink.new) (whole_line (part_line way) []) result }
{
    match way {
        Direction::Up => write_line(&Line::Up, &progress.path, sink),
        Direction::Down => write_line(&Line::Down, &progress.path, sink),
    }
}

/// Writes the line of a part, and searches it from its root on.
fn put_part<K: Sink>(
    node: &mut Node,
    way: Direction,
    progress: &mut Progress,
    sink: &mut K,
) -> Result<(), WriteFault>
    requires root { node.old.decisions ≡ [] }
    requires count { length progress.old.incumbent ≡ length node.old.inst.tasks }
    requires room { HasRoom most_tasks progress.old.path }
    requires few { progress.old.branched ≤ progress.old.limit }
    ensures inst { node.new.inst ≡ node.old.inst }
    ensures root { node.new.decisions ≡ [] }
    ensures writes { WritesNodes (whole_line (part_line way) []) (K.view sink.old) (K.view sink.new)
        node.old.inst way ([] ∷ []) [] progress.old progress.new result }
{
    put_way(way, progress, sink)?;
    search_part(node, way, progress, sink)
}

/// Writes the line at the end of a tree.
fn put_end<K: Sink>(progress: &Progress, sink: &mut K) -> Result<(), WriteFault>
    requires few { progress.now.branched ≤ most_branchings }
    requires soon { IsSoon progress.now.bound }
    ensures { Writes (K.view sink.old) (K.view sink.new)
        (whole_line (End progress.now.branched progress.now.bound) []) result }
{
    write_line(
        &Line::End(progress.branched, progress.bound),
        &progress.path,
        sink,
    )
}

/// Searches both parts, and writes the lines of the tree, where cranes go one way.
pub(crate) fn write_both<K: Sink>(
    up: &mut Node,
    down: &mut Node,
    progress: &mut Progress,
    sink: &mut K,
) -> Result<(), WriteFault>
    requires one_way { up.old.inst.turn ≡ OneWay }
    requires turned { down.old.inst ≡ mirror up.old.inst }
    requires up { up.old.decisions ≡ [] }
    requires down { down.old.decisions ≡ [] }
    requires count { length progress.old.incumbent ≡ length up.old.inst.tasks }
    requires room { HasRoom most_tasks progress.old.path }
    requires begun { (first : Option (List Slot)) × IsProgress up.old.inst first progress.old [] }
    requires few { progress.old.limit ≤ most_branchings }
    requires soon { IsSoon progress.old.bound }
    ensures up_inst { up.new.inst ≡ up.old.inst }
    ensures up_root { up.new.decisions ≡ [] }
    ensures down_inst { down.new.inst ≡ down.old.inst }
    ensures down_root { down.new.decisions ≡ [] }
    ensures writes { (first : Option (List Slot)) → IsProgress up.old.inst first progress.old []
        → WritesTree (K.view sink.old) (K.view sink.new) up.old.inst first progress.old progress.new
        result }
{
    write_line(&Line::Title, &progress.path, sink)?;
    put_part(up, Direction::Up, progress, sink)?;
    put_part(down, Direction::Down, progress, sink)?;
    put_end(progress, sink)
}

/// Searches the one part, and writes the lines of the tree, where cranes go as they like.
pub(crate) fn write_one<K: Sink>(
    up: &mut Node,
    progress: &mut Progress,
    sink: &mut K,
) -> Result<(), WriteFault>
    requires free { up.old.inst.turn ≡ Free }
    requires up { up.old.decisions ≡ [] }
    requires count { length progress.old.incumbent ≡ length up.old.inst.tasks }
    requires room { HasRoom most_tasks progress.old.path }
    requires begun { (first : Option (List Slot)) × IsProgress up.old.inst first progress.old [] }
    requires few { progress.old.limit ≤ most_branchings }
    requires soon { IsSoon progress.old.bound }
    ensures inst { up.new.inst ≡ up.old.inst }
    ensures root { up.new.decisions ≡ [] }
    ensures writes { (first : Option (List Slot)) → IsProgress up.old.inst first progress.old []
        → WritesTree (K.view sink.old) (K.view sink.new) up.old.inst first progress.old progress.new
        result }
{
    write_line(&Line::FreeTitle, &progress.path, sink)?;
    search_part(up, Direction::Up, progress, sink)?;
    put_end(progress, sink)
}
