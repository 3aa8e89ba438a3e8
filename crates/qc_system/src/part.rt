//! A new file beside another, whose place it takes when it is whole.

use crate::target::Found;
use std::fs::{self, OpenFile, OpenOptions, Permissions};
use std::io::{self, ErrorKind};
use std::os::fd::AsFd;
use std::os::unix::fs::{OpenOptionsExt, PermissionsExt, fchown};
use std::rt::Files;

/// How many names are tried for a new file.
const MOST_PARTS: u32 = 10;

/// A new file. It is removed where it is let go before it is put in its place.
pub(crate) struct Part<'a, R: Files> {
    rt: &'a R,
    path: String,
}

impl<R: Files> Drop for Part<'_, R> {
    fn drop(self) {
        let Part { rt, path } = self;
        let _ = fs::remove_file(rt, path.as_str());
    }
}

impl<R: Files> Part<'_, R> {
    /// Puts the file in its place, over the one that is there. After an error it is removed.
    pub(crate) fn put(self, place: &str) -> io::Result<()> {
        fs::rename(self.rt, self.path.as_str(), place)?;
        let Part { rt: _, path: _ } = self;
        Ok(())
    }
}

/// A new file beside the place, open for writing, with rights and owner of the file that it is to
/// replace: `PLACE.part`, or the first of `PLACE.part1` to `PLACE.part9` that isn't there.
pub(crate) fn begin_part<'a, R: Files + AllocGlobal>(
    rt: &'a R,
    place: &str,
    found: Option<Found>,
) -> io::Result<(Part<'a, R>, R::File)>
where
    R::File: AsFd,
{
    for turn in 0..MOST_PARTS {
        let path = part_path(rt, place, turn)?;
        match new_file(rt, path.as_str(), found) {
            Ok(file) => return Ok((Part { rt, path }, file)),
            Err(error) if error.kind() == ErrorKind::AlreadyExists => {}
            Err(error) => return Err(error),
        }
    }
    Err(io::Error::from(ErrorKind::AlreadyExists))
}

/// The path of the new file that is tried in this turn.
fn part_path<R: AllocGlobal>(rt: &R, place: &str, turn: u32) -> io::Result<String> {
    let path = if turn == 0 {
        format!(in rt.alloc(); "{place}.part")
    } else {
        format!(in rt.alloc(); "{place}.part{turn}")
    };
    Ok(path?)
}

/// A new file at the path, open for writing. One that is to replace another is closed to all but its owner until it
/// has the other's rights.
fn new_file<R: Files>(rt: &R, path: &str, found: Option<Found>) -> io::Result<R::File>
where
    R::File: AsFd,
{
    let mut options = OpenOptions::new();
    options.write(true);
    options.create_new(true);
    if found.is_some() {
        options.mode(0o600);
    }
    let file = options.open(rt, path);
    if let (Ok(file), Some(found)) = (&file, found) {
        keep_rights(file, found);
    }
    file
}

/// Gives the new file owner, group and rights of the one that it is to replace, where the system allows it.
fn keep_rights<F: OpenFile + AsFd>(file: &F, found: Found) {
    let (owner, group) = (found.owner, found.group);
    if fchown(file, Some(owner), Some(group)).is_err() {
        let _ = fchown(file, None, Some(group));
    }
    let _ = file.set_permissions(Permissions::from_mode(found.rights));
}
