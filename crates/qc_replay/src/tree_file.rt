//! The replay of a file.
ghost use Rattle.std.specs.Prelude.{◌≡◌, ◌+◌, ◌<◌, ◌≤◌, ◌^◌, Ok, Err, Some, IfOk, IfSome, OnOk, true, false};
ghost use Rattle.std.specs.Io.KnownBytes.{prepend_known};
ghost use Rattle.qc_io.specs.Outside.{file_at};
ghost use Rattle.qc_io.specs.Reads.{ReadsOn};
ghost use Rattle.qc_num.specs.Paths.{HasRoom};
ghost use Rattle.qc_model.specs.Instance.{Valid};
ghost use Rattle.qc_tree.specs.LineIn.{Listed};
ghost use Rattle.qc_tree.specs.Trees.{IsTree, NoneEarlier, Tree, tree_branchings, tree_text, tree_value};
ghost use Rattle.qc_replay.specs.File.{Fails, IsReadThrough, Leads, ReadsTree};
ghost use Rattle.qc_replay.specs.Read.{with_line};
ghost use Rattle.qc_replay.specs.Shown.{IsShown};
ghost use Rattle.qc_replay.specs.Stages.{is_over};
ghost use Rattle.qc_replay.specs.Walk.{start, tree_in};
ghost use Rattle.qc_tree.specs.declared.fault.TreeFault.{TreeFault};

use crate::fault::{ReplayError, Replayed};
use crate::lines::TreeLines;
use crate::walk::Walk;
use qc_io::Shelf;
use qc_model::Instance;
use std::alloc::Global;

/// What the tree in a file shows for an instance: an end in ticks that no schedule beats which its cranes
/// may follow, one way or as they like by its turn, or that there is none. The file is read line by line to its end, or to its first fault.
pub fn replay<S: Shelf>(
    alloc: Global,
    inst: &Instance,
    shelf: &mut S,
    name: &str,
) -> Result<Replayed, ReplayError>
    ensures read { IfOk result (λ read. IfSome (file_at (S.Sink.view shelf.old).files name.now)
        (λ bytes. tree_in inst.now bytes ≡ Ok read)) }
    ensures fault { (fault : TreeFault) → result ≡ Err (ReplayError.Tree fault)
        → IfSome (file_at (S.Sink.view shelf.old).files name.now)
        (λ bytes. tree_in inst.now bytes ≡ Err fault) }

    // What whoever gets the file may believe.
    ensures shown { IfOk result
        (IsShown inst.now (file_at (S.Sink.view shelf.old).files name.now)) }
    ensures none_earlier { IfOk result (λ read. NoneEarlier inst.now read.bound) }
    ensures every_tree { (tree : Tree) (fault : TreeFault) → IsTree inst.now tree
        → file_at (S.Sink.view shelf.old).files name.now ≡ Some (tree_text inst.now tree)
        → ¬ (result ≡ Err (ReplayError.Tree fault)) }
    ensures one_value { IfOk result (λ read. (tree : Tree) → IsTree inst.now tree
        → file_at (S.Sink.view shelf.old).files name.now ≡ Some (tree_text inst.now tree)
        → (read.bound ≡ tree_value inst.now tree) × (read.branched ≡ tree_branchings tree)) }

    ensures file { ReadsTree (S.Sink.view shelf.old) (S.Sink.view shelf.new) name.now result }
{
    let mut walk = Walk::new(alloc, inst)?;
    let read = read_file(alloc, &mut walk, shelf, name);
    drop(walk); // by name: proved faster
    read
}

/// Opens the file of a tree, and reads it to its end.
fn read_file<S: Shelf>(
    alloc: Global,
    walk: &mut Walk,
    shelf: &mut S,
    name: &str,
) -> Result<Replayed, ReplayError>
    requires start { walk.old.reading ≡ start walk.old.inst }
    requires valid { Valid walk.old.inst }
    ensures read { IfOk result (IsReadThrough walk.old.inst
        (file_at (S.Sink.view shelf.old).files name.now)) }
    ensures fault { (fault : TreeFault) → result ≡ Err (ReplayError.Tree fault)
        → Fails walk.old.inst 1 (start walk.old.inst)
        (file_at (S.Sink.view shelf.old).files name.now) fault }
    ensures file { ReadsTree (S.Sink.view shelf.old) (S.Sink.view shelf.new) name.now result }
{
    let mut lines = TreeLines::open(alloc, shelf, name)?;
    read_lines(walk, &mut lines, shelf)
}

/// Reads all lines of a tree, from its title to the end of its file.
fn read_lines<S: Shelf>(
    walk: &mut Walk,
    lines: &mut TreeLines,
    shelf: &mut S,
) -> Result<Replayed, ReplayError>
    requires start { walk.old.reading ≡ start walk.old.inst }
    requires valid { Valid walk.old.inst }
    requires first { lines.old.number ≡ 1 }
    requires room { HasRoom 240 lines.old.path }
    requires reading { (S.Sink.view shelf.old).reading ≡ true }
    ensures read { IfOk result (IsReadThrough walk.old.inst
        (prepend_known lines.old.reader (S.Sink.view shelf.old).rest)) }
    ensures fault { (fault : TreeFault) → result ≡ Err (ReplayError.Tree fault)
        → Fails walk.old.inst 1 (start walk.old.inst) (prepend_known lines.old.reader (S.Sink.view shelf.old).rest) fault }
    ensures last { (fault : TreeFault) → result ≡ Err (ReplayError.Tree fault)
        → fault.line ≤ 8000007 }
    ensures reads { ReadsOn (S.Sink.view shelf.old) (S.Sink.view shelf.new)
        ReplayError.ReadFault result }
{
    while !walk.is_over() {
        read_line(walk, lines, shelf)?;
    }
    lines.end(shelf)?;
    Ok(walk.shown())
}

/// Reads the next line, of which one must come.
fn read_line<S: Shelf>(
    walk: &mut Walk,
    lines: &mut TreeLines,
    shelf: &mut S,
) -> Result<(), ReplayError>
    requires due { is_over walk.old.reading ≡ false }
    requires room { HasRoom 240 lines.old.path }
    requires few { lines.old.number < 2 ^ 31 }
    requires reading { (S.Sink.view shelf.old).reading ≡ true }
    ensures inst { walk.new.inst ≡ walk.old.inst }
    ensures read { OnOk result (Leads walk.old.inst lines.old.number walk.old.reading
        (prepend_known lines.old.reader (S.Sink.view shelf.old).rest) lines.new.number
        walk.new.reading (prepend_known lines.new.reader (S.Sink.view shelf.new).rest)) }
    ensures one { OnOk result ((seen : Listed)
        × (with_line walk.old.inst walk.old.reading seen ≡ Ok walk.new.reading)) }
    ensures fault { (fault : TreeFault) → result ≡ Err (ReplayError.Tree fault)
        → (fault.line ≡ lines.old.number) × Fails walk.old.inst lines.old.number walk.old.reading
        (prepend_known lines.old.reader (S.Sink.view shelf.old).rest) fault }
    ensures number { OnOk result (lines.new.number ≡ lines.old.number + 1) }
    ensures room_stays { HasRoom 240 lines.new.path }
    ensures reads { ReadsOn (S.Sink.view shelf.old) (S.Sink.view shelf.new)
        ReplayError.ReadFault result }
{
    let line = lines.next(shelf)?;
    match walk.take(line, lines.path.as_slice()) {
        Ok(()) => {
            lines.number += 1;
            Ok(())
        }
        Err(kind) => Err(lines.fault(kind)),
    }
}
