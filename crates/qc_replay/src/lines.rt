//! The lines of a tree's file.
ghost use Rattle.std.specs.Prelude.{◌≡◌, ◌<◌, ◌^◌, [], IfOk, IfSome, OnOk, Err, true, length};
ghost use Rattle.std.specs.Io.KnownBytes.{prepend_known};
ghost use Rattle.qc_io.specs.Outside.{IsMissing, ReadCause, file_at};
ghost use Rattle.qc_num.specs.Paths.{HasRoom};
ghost use Rattle.qc_io.specs.Reads.{Reads, ReadsOn};
ghost use Rattle.qc_tree.specs.Lines.{IsLine};
ghost use Rattle.qc_replay.specs.File.{IsFaulty, IsNext};
ghost use Rattle.qc_tree.specs.declared.fault.TreeFault.{TreeFault};
ghost use Rattle.qc_tree.specs.declared.fault.TreeKind.TheVariants.{After};

use crate::fault::ReplayError;
use qc_io::Shelf;
use qc_model::MOST_TASKS;
use qc_num::Path;
use qc_tree::{Line, LineFault, LineOpen, LineReader, TreeFault, TreeKind, read_line};
use std::alloc::Global;

/// The lines of a file, one after the other.
#[derive(Drop)]
pub(crate) struct TreeLines {
    pub(crate) reader: LineReader,
    /// The tasks of the line that was read last, by their numbers in the file.
    pub(crate) path: Path,
    /// The number of the line that comes next, from 1.
    pub(crate) number: u32,
}

impl TreeLines {
    /// The lines of a file, from its first on.
    pub(crate) fn open<S: Shelf>(
        alloc: Global,
        shelf: &mut S,
        name: &str,
    ) -> Result<TreeLines, ReplayError>
        ensures whole { IfOk result (λ lines. prepend_known lines.reader (S.Sink.view shelf.new).rest
            ≡ file_at (S.Sink.view shelf.old).files name.now) }
        ensures first { IfOk result (λ lines. lines.number ≡ 1) }
        ensures room { IfOk result (λ lines. HasRoom 240 lines.path) }
        ensures reading { OnOk result ((S.Sink.view shelf.new).reading ≡ true) }
        ensures missing { IsMissing (S.Sink.view shelf.old).files name.now
            → ¬ (result ≡ Err ReplayError.OutOfMemory) → result ≡ Err ReplayError.ReadFault }
        ensures no_fault { (fault : TreeFault) → ¬ (result ≡ Err (ReplayError.Tree fault)) }
        ensures read_fault { result ≡ Err ReplayError.ReadFault
            → ReadCause (S.Sink.view shelf.old) (S.Sink.view shelf.new) name.now }
        ensures reads { Reads (S.Sink.view shelf.old) (S.Sink.view shelf.new)
            (¬ (result ≡ Err ReplayError.ReadFault)) }
    {
        let mut path = Path::new(alloc);
        path.reserve(MOST_TASKS as usize)?;
        match LineReader::open(alloc, shelf, name) {
            Ok(reader) => Ok(TreeLines {
                reader,
                path,
                number: 1,
            }),
            Err(LineOpen::ReadFault) => Err(ReplayError::ReadFault),
            Err(LineOpen::OutOfMemory) => Err(ReplayError::OutOfMemory),
        }
    }

    /// A fault of the line that comes next.
    pub(crate) fn fault(&self, kind: TreeKind) -> ReplayError
        ensures { result ≡ ReplayError.Tree (record { line = self.now.number; kind = kind }) }
    {
        ReplayError::Tree(TreeFault {
            line: self.number,
            kind,
        })
    }

    /// The next line, of which one must come.
    pub(crate) fn next<S: Shelf>(&mut self, shelf: &mut S) -> Result<Line, ReplayError>
        requires reading { (S.Sink.view shelf.old).reading ≡ true }
        requires room { HasRoom 240 self.old.path }
        requires few { self.old.number < 2 ^ 31 }
        ensures in_range { IfOk result (λ line. IsLine line self.new.path.items) }
        ensures next { IfOk result (λ line.
            IsNext (prepend_known self.old.reader (S.Sink.view shelf.old).rest) line self.new.path.items
            (prepend_known self.new.reader (S.Sink.view shelf.new).rest)) }
        ensures number { OnOk result (self.new.number ≡ self.old.number) }
        ensures room_stays { HasRoom 240 self.new.path }
        ensures fault { (fault : TreeFault) → result ≡ Err (ReplayError.Tree fault)
            → (fault.line ≡ self.old.number)
            × IsFaulty (prepend_known self.old.reader (S.Sink.view shelf.old).rest) fault.kind }
        ensures reads { ReadsOn (S.Sink.view shelf.old) (S.Sink.view shelf.new)
            ReplayError.ReadFault result }
    {
        match self.reader.next(shelf) {
            Ok(Some(text)) => match read_line(text, &mut self.path) {
                Ok(line) => Ok(line),
                Err(_) => Err(self.fault(TreeKind::Spelling)),
            },
            Ok(None) => Err(self.fault(TreeKind::Cut)),
            Err(LineFault::ReadFault) => Err(ReplayError::ReadFault),
            Err(LineFault::TooLong) => Err(self.fault(TreeKind::LineTooLong)),
            Err(LineFault::Cut) => Err(self.fault(TreeKind::Cut)),
        }
    }

    /// Nothing may come any more.
    pub(crate) fn end<S: Shelf>(&mut self, shelf: &mut S) -> Result<(), ReplayError>
        requires reading { (S.Sink.view shelf.old).reading ≡ true }
        ensures ended { OnOk result
            (IfSome (prepend_known self.old.reader (S.Sink.view shelf.old).rest) (λ left. left ≡ [])) }
        ensures fault { (fault : TreeFault) → result ≡ Err (ReplayError.Tree fault)
            → (fault.line ≡ self.old.number) × (fault.kind ≡ After)
            × IfSome (prepend_known self.old.reader (S.Sink.view shelf.old).rest) (λ left. 0 < length left) }
        ensures reads { ReadsOn (S.Sink.view shelf.old) (S.Sink.view shelf.new)
            ReplayError.ReadFault result }
    {
        match self.reader.next(shelf) {
            Ok(None) => Ok(()),
            Err(LineFault::ReadFault) => Err(ReplayError::ReadFault),
            _ => Err(self.fault(TreeKind::After)),
        }
    }
}
