//! Which file of the system an open file or a name is.
ghost use Rattle.std.specs.Prelude.{◌≡◌, ◌↔◌, IfOk, IfSome, IsSomeAnd, OnErr, IsTrue, Contains, string_bytes};
ghost use Rattle.qc_system.specs.Used.{NotesOne};

use std::fs::{Metadata, OpenFile};
use std::io::{self, ErrorKind};
use std::os::unix::fs::MetadataExt;

/// A file of the system, whatever its names are: its device and its number there.
#[derive(Clone, Copy, PartialEq, Eq)]
pub(crate) struct Identity {
    device: u64,
    number: u64,
}

impl Identity {
    /// The file that this tells of.
    pub(crate) fn of(metadata: &Metadata) -> Identity {
        Identity {
            device: metadata.dev(),
            number: metadata.ino(),
        }
    }
}

/// Adds an open file to the files, and answers which it is. It fails, and nothing is added, where the system
/// doesn't tell that, or where it can't be kept.
pub(crate) fn note<F: OpenFile>(opened: &F, files: &mut Vec<Identity>) -> io::Result<Identity>
    ensures added { IfOk result (NotesOne files.old.items files.new.items) }
    ensures none { OnErr result (files.new.items ≡ files.old.items) }
{
    let file = Identity::of(&opened.metadata()?);
    match files.push(file) {
        Ok(()) => Ok(file),
        Err(_) => Err(io::Error::from(ErrorKind::OutOfMemory)),
    }
}

/// Whether the file is one of the files.
pub(crate) fn is_among(file: Identity, files: &[Identity]) -> bool
    ensures { IsTrue result ↔ Contains files.now file }
{
    files.contains(&file)
}

/// A file that was finished, by the name that was asked for.
#[derive(Drop)]
pub(crate) struct Finished {
    pub(crate) name: String,
    pub(crate) identity: Identity,
}

/// Which file may be made again under this name: the one that was finished last, where it has this name.
pub(crate) fn again_as(last: &Option<Finished>, name: &str) -> Option<Identity>
    ensures { IfSome result (λ file. IsSomeAnd last.now (λ last.
        (string_bytes last.name ≡ name.now) × (file ≡ last.identity))) }
{
    match last {
        Some(last) if last.name.as_str() == name => Some(last.identity),
        _ => None,
    }
}
