//! A reader of lines.
ghost use Rattle.std.specs.Prelude.{◌≡◌, ◌≤◌, ◌<◌, ◌-◌, ◌==◌, ◌⊎◌, ℕ, [], length, take, drop, position, true, false, vec_len, OnOk, OnErr, IfOk, IfSome, IfNone, IsOk, MatchOption};
ghost use Rattle.std.specs.Io.KnownBytes.{prepend_known};
ghost use Rattle.qc_io.specs.Outside.{Rose, IsMissing, ReadCause, file_at};
ghost use Rattle.qc_io.specs.Reads.{Reads, ReadsOn};
ghost use Rattle.std.specs.Borrow.{sem};
ghost use Rattle.std.specs.Io.BufRead.{Rests};
ghost use Rattle.qc_lines.specs.contracts.reader.LineReader.{the_row};
ghost use Rattle.qc_lines.specs.Left.{HoldsLine, IsCut, IsTooLong, Takes};

use qc_io::{Failed, Shelf};
use std::alloc::{AllocError, Global};
use std::marker::Model;

/// How many bytes are held at a time, where no line can have more.
const BLOCK: usize = 65536;

/// Why a file wasn't opened to be read line by line.
#[derive(Clone, Copy, Debug, PartialEq, Eq)]
pub enum LineOpen {
    /// The shelf doesn't hold the file, or a call on the shelf failed.
    ReadFault,
    OutOfMemory,
}

impl From<Failed> for LineOpen {
    ghost use Rattle.std.specs.Prelude.{◌≡◌};
    ghost use Rattle.qc_lines.specs.declared.reader.LineOpen.TheVariants.{ReadFault};

    ghost from_gives = { λ _ error. error ≡ ReadFault };

    fn from(_failed: Failed) -> LineOpen {
        LineOpen::ReadFault
    }
}

impl From<AllocError> for LineOpen {
    ghost use Rattle.std.specs.Prelude.{◌≡◌};
    ghost use Rattle.qc_lines.specs.declared.reader.LineOpen.TheVariants.{OutOfMemory};

    ghost from_gives = { λ _ error. error ≡ OutOfMemory };

    fn from(_refused: AllocError) -> LineOpen {
        LineOpen::OutOfMemory
    }
}

/// Why no line came.
#[derive(Clone, Copy, Debug, PartialEq, Eq)]
pub enum LineFault {
    /// A call on the shelf failed.
    ReadFault,
    /// The next `MOST` bytes have no line feed.
    TooLong,
    /// The file ends before the line feed.
    Cut,
}

impl From<Failed> for LineFault {
    ghost use Rattle.std.specs.Prelude.{◌≡◌};
    ghost use Rattle.qc_lines.specs.declared.reader.LineFault.TheVariants.{ReadFault};

    ghost from_gives = { λ _ error. error ≡ ReadFault };

    fn from(_failed: Failed) -> LineFault {
        LineFault::ReadFault
    }
}

/// Reads the file that is open on a shelf line by line, where a line and its line feed have at most `MOST`
/// bytes. It holds the bytes that were read and aren't given out yet: what is left to be read are these
/// and then the rest of the file.
#[derive(Drop)]
pub struct LineReader<const MOST: usize> {
    bytes: Vec<u8>,
    start: usize,
    end: usize,
}

impl<const MOST: usize> Model for LineReader<MOST> {
    ghost use Rattle.std.specs.Prelude.{ℕ, List, take, drop, vec_len, ◌≤◌, ◌-◌};

    ghost Value = { List ℕ };

    ghost view = { λ r. take (r.end - r.start) (drop r.start r.bytes.items) };

    ghost invariant = { λ r. (r.start ≤ r.end) × (r.end ≤ vec_len r.bytes)
        × (MOST ≤ vec_len r.bytes) };
}

impl<const MOST: usize> LineReader<MOST> {
    /// Opens the file. All memory is taken here.
    pub fn open<S: Shelf>(
        alloc: Global,
        shelf: &mut S,
        name: &str,
    ) -> Result<LineReader<MOST>, LineOpen>
        ensures whole { IfOk result (λ held. prepend_known held (S.Sink.view shelf.new).rest
            ≡ file_at (S.Sink.view shelf.old).files name.now) }
        ensures open { OnOk result ((S.Sink.view shelf.new).reading ≡ true) }
        ensures missing { IsMissing (S.Sink.view shelf.old).files name.now
            → result ≡ Err LineOpen.ReadFault }
        ensures read_fault { result ≡ Err LineOpen.ReadFault
            → ReadCause (S.Sink.view shelf.old) (S.Sink.view shelf.new) name.now }
        ensures reads { Reads (S.Sink.view shelf.old) (S.Sink.view shelf.new)
            (¬ (result ≡ Err LineOpen.ReadFault)) }
    {
        shelf.open(name)?;
        let bytes = block_of(alloc, BLOCK.max(MOST))?;
        Ok(LineReader {
            bytes,
            start: 0,
            end: 0,
        })
    }

    /// Takes the next line, and gives it without its line feed. `None` comes where nothing is left.
    /// After a fault nothing is said of what is left.
    pub fn next<S: Shelf>(&mut self, shelf: &mut S) -> Result<Option<&[u8]>, LineFault>
        requires open { (S.Sink.view shelf.old).reading ≡ true }
        ensures* left { sem 𝓛 (Rests (the_row MOST.row) self.entry (λ new. IfOk result
            (λ next. MatchOption next
            (prepend_known new (S.Sink.view shelf.new).rest
            ≡ prepend_known self.old (S.Sink.view shelf.old).rest)
            (λ line. Takes MOST (prepend_known self.old (S.Sink.view shelf.old).rest) line.now
            (prepend_known new (S.Sink.view shelf.new).rest))))) }
        ensures ended { IfOk result (λ next. IfNone next
            (IfSome (prepend_known self.old (S.Sink.view shelf.old).rest) (λ left. left ≡ []))) }
        ensures too_long { result ≡ Err LineFault.TooLong
            → IfSome (prepend_known self.old (S.Sink.view shelf.old).rest) (IsTooLong MOST) }
        ensures cut { result ≡ Err LineFault.Cut
            → IfSome (prepend_known self.old (S.Sink.view shelf.old).rest) (IsCut MOST) }
        ensures reads { ReadsOn (S.Sink.view shelf.old) (S.Sink.view shelf.new)
            LineFault.ReadFault result }
    {
        let Some(len) = self.find(shelf)? else {
            return Ok(None);
        };
        let start = self.start;
        self.start += len + 1;
        Ok(Some(&self.bytes.as_slice()[start..start + len]))
    }

    /// The length of the next line, which is then held whole, with its line feed behind it.
    fn find<S: Shelf>(&mut self, shelf: &mut S) -> Result<Option<usize>, LineFault>
        requires open { (S.Sink.view shelf.old).reading ≡ true }
        ensures left { OnOk result (prepend_known self.new (S.Sink.view shelf.new).rest
            ≡ prepend_known self.old (S.Sink.view shelf.old).rest) }
        ensures line { IfOk result (λ found. IfSome found (HoldsLine MOST self.new)) }
        ensures ended { IfOk result (λ found. IfNone found
            (IfSome (prepend_known self.old (S.Sink.view shelf.old).rest) (λ left. left ≡ []))) }
        ensures too_long { result ≡ Err LineFault.TooLong
            → IfSome (prepend_known self.old (S.Sink.view shelf.old).rest) (IsTooLong MOST) }
        ensures cut { result ≡ Err LineFault.Cut
            → IfSome (prepend_known self.old (S.Sink.view shelf.old).rest) (IsCut MOST) }
        ensures reads { ReadsOn (S.Sink.view shelf.old) (S.Sink.view shelf.new)
            LineFault.ReadFault result }
    {
        if let Some(len) = self.gather(shelf)? {
            if len >= MOST {
                return Err(LineFault::TooLong);
            }
            return Ok(Some(len));
        }
        if self.end - self.start >= MOST {
            return Err(LineFault::TooLong);
        }
        if self.end > self.start {
            return Err(LineFault::Cut);
        }
        Ok(None)
    }

    /// Reads until the bytes held have a line feed, or are as many as a line can have, or nothing is left
    /// to be read. It answers the place of the first line feed.
    fn gather<S: Shelf>(&mut self, shelf: &mut S) -> Result<Option<usize>, Failed>
        requires open { (S.Sink.view shelf.old).reading ≡ true }
        ensures found { IfOk result (λ found. found ≡ position (λ b. b == 10) self.new) }
        ensures left { OnOk result (prepend_known self.new (S.Sink.view shelf.new).rest
            ≡ prepend_known self.old (S.Sink.view shelf.old).rest) }
        ensures none { IfOk result (λ found. IfNone found ((MOST ≤ length self.new)
            ⊎ IfSome (S.Sink.view shelf.new).rest (λ rest. rest ≡ []))) }
        ensures rose { OnErr result
            (Rose (S.Sink.view shelf.old).read_faults (S.Sink.view shelf.new).read_faults) }
        ensures reading_stays { (S.Sink.view shelf.new).reading ≡ true }
        ensures reads { Reads (S.Sink.view shelf.old) (S.Sink.view shelf.new) (IsOk result) }
    {
        let mut found = self.line_len();
        while found.is_none() && self.more(shelf)? {
            found = self.line_len();
        }
        Ok(found)
    }

    /// The place of the first line feed of the bytes held.
    fn line_len(&self) -> Option<usize>
        ensures { result ≡ position (λ b. b == 10) self.now }
    {
        let held = &self.bytes.as_slice()[self.start..self.end];
        held.iter().position(|b| *b == b'\n')
    }

    /// Reads once where fewer bytes are held than a line can have. It answers whether anything came.
    fn more<S: Shelf>(&mut self, shelf: &mut S) -> Result<bool, Failed>
        requires open { (S.Sink.view shelf.old).reading ≡ true }
        ensures left { OnOk result (prepend_known self.new (S.Sink.view shelf.new).rest
            ≡ prepend_known self.old (S.Sink.view shelf.old).rest) }
        ensures more { IfOk result (λ more. more ≡ true
            → (length self.old < MOST) × (length self.old < length self.new)) }
        ensures stays { IfOk result (λ more. more ≡ false → self.new ≡ self.old) }
        ensures ended { IfOk result (λ more. more ≡ false → (MOST ≤ length self.new)
            ⊎ IfSome (S.Sink.view shelf.new).rest (λ rest. rest ≡ [])) }
        ensures rose { OnErr result
            (Rose (S.Sink.view shelf.old).read_faults (S.Sink.view shelf.new).read_faults) }
        ensures reading_stays { (S.Sink.view shelf.new).reading ≡ true }
        ensures reads { Reads (S.Sink.view shelf.old) (S.Sink.view shelf.new) (IsOk result) }
    {
        let len = self.end - self.start;
        if len >= MOST {
            return Ok(false);
        }
        move_to_front(self.bytes.as_mut_slice(), self.start, self.end);
        self.start = 0;
        self.end = len;
        self.end = read_behind(shelf, self.bytes.as_mut_slice(), len)?;
        Ok(self.end > len)
    }
}

/// A block of so many bytes to read into.
fn block_of(alloc: Global, size: usize) -> Result<Vec<u8>, AllocError>
    ensures { IfOk result (λ block. vec_len block ≡ size) }
{
    vec![in alloc; 0u8; size]
}

/// Moves the bytes between both places to the front.
fn move_to_front(bytes: &mut [u8], start: usize, end: usize)
    requires order { start ≤ end }
    requires inside { end ≤ length bytes.old }
    ensures front { take (end - start) bytes.new ≡ take (end - start) (drop start bytes.old) }
    ensures len { length bytes.new ≡ length bytes.old }
{
    bytes.copy_within(start..end, 0);
}

/// Reads once behind the first bytes, and answers how many are there then.
fn read_behind<S: Shelf>(shelf: &mut S, bytes: &mut [u8], had: usize) -> Result<usize, Failed>
    requires open { (S.Sink.view shelf.old).reading ≡ true }
    requires room { had < length bytes.old }
    ensures left { IfOk result (λ end. prepend_known (take end bytes.new) (S.Sink.view shelf.new).rest
        ≡ prepend_known (take had bytes.old) (S.Sink.view shelf.old).rest) }
    ensures same { IfOk result (λ end. end ≡ had → take had bytes.new ≡ take had bytes.old) }
    ensures range { IfOk result (λ end. (had ≤ end) × (end ≤ length bytes.new)) }
    ensures ended { IfOk result (λ end. end ≡ had
        → IfSome (S.Sink.view shelf.new).rest (λ rest. rest ≡ [])) }
    ensures len { length bytes.new ≡ length bytes.old }
    ensures rose { OnErr result
        (Rose (S.Sink.view shelf.old).read_faults (S.Sink.view shelf.new).read_faults) }
    ensures reading_stays { (S.Sink.view shelf.new).reading ≡ true }
    ensures reads { Reads (S.Sink.view shelf.old) (S.Sink.view shelf.new) (IsOk result) }
{
    let count = shelf.read(&mut bytes[had..])?;
    Ok(had + count)
}
