//! A file that is being made.
ghost use Rattle.std.specs.Prelude.{◌≡◌, ◌↔◌, ◌≤◌, ◌<◌, length, take, None, Some, IsTrue, IsErr, IfOk, IfSome, string_bytes};
ghost use Rattle.std.specs.Io.KnownBytes.{Appends, append_known};
ghost use Rattle.qc_io.specs.Writes.{Counts};
ghost use Rattle.qc_system.specs.Once.{WritesOnce};
ghost use Rattle.qc_system.specs.Used.{IsInUse, NotesOne};

use crate::held::Held;
use crate::once::write_once;
use crate::part::{Part, begin_part};
use crate::same::{Identity, is_among, note};
use crate::target::{Found, Target};
use qc_io::{Failed, fault};
use std::fs::{self, OpenFile};
use std::io::{self, ErrorKind};
use std::os::fd::AsFd;
use std::rt::Files;

/// A file that is being made, by the name that was asked for.
pub(crate) struct Making<'a, R: Files> {
    rt: &'a R,
    pub(crate) name: String,
    /// The path that the links of the name lead to.
    path: String,
    /// The new file that takes the place of this path; None where the file is written as it stands.
    part: Option<Part<'a, R>>,
    /// What the bytes go into. A file that is written as it stands is opened at its first byte.
    pub(crate) file: Option<R::File>,
    /// The bytes that are to go into a new file with those that follow; None where a file is written as it stands.
    pub(crate) held: Option<Held>,
}

// By hand, so that it is let go by one call wherever it is held. A new file is removed ahead of its closing.
impl<R: Files> Drop for Making<'_, R> {
    fn drop(self) {
        let Making {
            rt: _,
            name: _,
            path: _,
            part: _,
            file: _,
            held: _,
        } = self;
    }
}

/// Whether a file is in use and isn't the one that may be made again.
fn is_held(file: Identity, again: Option<Identity>, used: &[Identity]) -> bool
    ensures { IsTrue result ↔ IsInUse used.now again file }
{
    match again {
        Some(again) => again != file && is_among(file, used),
        None => is_among(file, used),
    }
}

/// Whether the file is there and in use.
fn is_in_use(found: Option<Found>, again: Option<Identity>, used: &[Identity]) -> bool
    ensures { IfSome found (λ found. IsTrue result ↔ IsInUse used.now again found.identity) }
{
    match found {
        Some(found) => is_held(found.identity, again, used),
        None => false,
    }
}

/// Begins a file. It fails where it is in use and isn't the one that may be made again, or can't be made.
pub(crate) fn begun<'a, R: Files + AllocGlobal>(
    rt: &'a R,
    name: &str,
    target: Target,
    again: Option<Identity>,
    used: &[Identity],
) -> io::Result<Making<'a, R>>
where
    R::File: AsFd,
    ensures named { IfOk result (λ making. string_bytes making.name ≡ name.now) }
    ensures unused { IfSome target.found (λ found. IsInUse used.now again found.identity → IsErr result) }
{
    let Target { path, found } = target;
    if is_in_use(found, again, used) {
        return Err(io::Error::from(ErrorKind::ResourceBusy));
    }
    begin_unused(rt, name, path, found)
}

/// Begins a file that isn't in use.
fn begin_unused<'a, R: Files + AllocGlobal>(
    rt: &'a R,
    name: &str,
    path: String,
    found: Option<Found>,
) -> io::Result<Making<'a, R>>
where
    R::File: AsFd,
    ensures { IfOk result (λ making. string_bytes making.name ≡ name.now) }
{
    let name = String::from_str(rt.alloc(), name)?;
    if is_in_place(found) {
        return Ok(Making {
            rt,
            name,
            path,
            part: None,
            file: None,
            held: None,
        });
    }
    let held = Held::new(rt.alloc())?;
    let (part, file) = begin_part(rt, path.as_str(), found)?;
    Ok(Making {
        rt,
        name,
        path,
        part: Some(part),
        file: Some(file),
        held: Some(held),
    })
}

/// Whether the file is there and written as it stands.
fn is_in_place(found: Option<Found>) -> bool {
    match found {
        Some(found) => found.in_place,
        None => false,
    }
}

impl<R: Files> Making<'_, R> {
    /// Opens a file that is written as it stands.
    fn open(&mut self) -> io::Result<()>
        ensures name_stays { self.new.name ≡ self.old.name }
        ensures file_stays { IfSome self.old.file (λ file. self.new.file ≡ Some file) }
        ensures held_stays { self.new.held ≡ self.old.held }
    {
        if self.file.is_none() {
            self.file = Some(fs::create(self.rt, self.path.as_str())?);
        }
        Ok(())
    }

    /// Takes the front of a piece: it goes into a file that is written as it stands, and waits where a new one is made.
    pub(crate) fn write(
        &mut self,
        faults: &mut u64,
        why: &mut Option<io::Error>,
        piece: &[u8],
    ) -> Result<usize, Failed>
        ensures writes { self.old.held ≡ None → IfSome self.old.file (λ before. IfSome self.new.file (λ after.
            WritesOnce (R.File.contents before) (R.File.contents after) piece.now result)) }
        ensures takes { IfSome self.old.held (λ held. IfSome self.new.held (λ now.
            IfSome self.old.file (λ before. IfSome self.new.file (λ after. IfOk result (λ count.
            Appends (append_known (R.File.contents before) held.bytes.items)
            (append_known (R.File.contents after) now.bytes.items) (take count piece.now)))))) }
        ensures at_least { IfOk result (λ count. 0 < length piece.now → 0 < count) }
        ensures at_most { IfOk result (λ count. count ≤ length piece.now) }
        ensures counts { Counts faults.old faults.new result }
        ensures name_stays { self.new.name ≡ self.old.name }
    {
        *why = self.open().err();
        let Some(file) = &mut self.file else {
            return Err(fault(faults));
        };
        match &mut self.held {
            Some(held) => held.take(file, faults, why, piece),
            None => write_once(file, faults, why, piece),
        }
    }

    /// Gives the file all its bytes, and notes that it is used.
    fn fill(&mut self, used: &mut Vec<Identity>) -> io::Result<Identity>
        // What waited is in the file.
        ensures fills { IfOk result (λ _. IfSome self.old.held (λ held.
            IfSome self.old.file (λ before. IfSome self.new.file (λ after.
            Appends (R.File.contents before) (R.File.contents after) held.bytes.items)))) }
        ensures noted { IfOk result (NotesOne used.old.items used.new.items) }
    {
        self.open()?;
        let Some(file) = &mut self.file else {
            return Err(io::Error::from(ErrorKind::NotFound));
        };
        if let Some(held) = &mut self.held {
            held.end(file)?;
        }
        note(file, used)
    }

    /// Puts a new file in its place, with all its bytes stored.
    fn put(&mut self) -> io::Result<()>
        ensures { self.new.file ≡ self.old.file }
    {
        let Some(part) = self.part.take() else {
            return Ok(());
        };
        if let Some(file) = &self.file {
            file.sync_all()?;
        }
        part.put(self.path.as_str())
    }

    /// Puts the file in its place, with all its bytes stored, and notes that it is used. Answers which file it is.
    pub(crate) fn finish(&mut self, used: &mut Vec<Identity>) -> io::Result<Identity>
        ensures fills { IfOk result (λ _. IfSome self.old.held (λ held.
            IfSome self.old.file (λ before. IfSome self.new.file (λ after.
            Appends (R.File.contents before) (R.File.contents after) held.bytes.items)))) }
        ensures noted { IfOk result (NotesOne used.old.items used.new.items) }
    {
        match self.fill(used) {
            Ok(file) => {
                self.put()?;
                Ok(file)
            }
            Err(error) => {
                // A new file that isn't filled is closed ahead of its removal.
                self.file = None;
                Err(error)
            }
        }
    }

    /// The name that was asked for. What of the file isn't in its place is let go.
    pub(crate) fn into_name(self) -> String
        ensures { result ≡ self.entry.name }
    {
        let Making {
            rt: _,
            name,
            path: _,
            part: _,
            file: _,
            held: _,
        } = self;
        name
    }
}
