//! Where a file is made: which file a name stands for.
ghost use Rattle.std.specs.Prelude.{◌≡◌, [], IsErr};

use crate::same::Identity;
use std::fs::{self, Metadata, OpenOptions};
use std::io::{self, ErrorKind};
use std::os::unix::fs::MetadataExt;
use std::path::{Path, PathBuf};
use std::rt::Files;

/// How many links are followed at most.
const MOST_LINKS: u32 = 40;

/// A file that is there.
#[derive(Clone, Copy)]
pub(crate) struct Found {
    pub(crate) identity: Identity,
    pub(crate) owner: u32,
    pub(crate) group: u32,
    pub(crate) rights: u32,
    is_folder: bool,
    /// Whether it is written as it stands, as a device or a pipe is, and not replaced.
    pub(crate) in_place: bool,
}

impl Found {
    /// The file that this tells of. A file of any kind but the plain one is written as it stands.
    fn of(metadata: &Metadata) -> Found {
        Found {
            identity: Identity::of(metadata),
            owner: metadata.uid(),
            group: metadata.gid(),
            rights: metadata.mode(),
            is_folder: metadata.is_dir(),
            in_place: !metadata.is_file(),
        }
    }
}

/// The file that a name stands for, with its links followed.
#[derive(Drop)]
pub(crate) struct Target {
    pub(crate) path: String,
    /// None where the file isn't there yet.
    pub(crate) found: Option<Found>,
}

/// The file that a name stands for. It fails where the name is empty, and where the system doesn't tell, or
/// doesn't let it be written.
pub(crate) fn target_of<R: Files + AllocGlobal>(rt: &R, name: &str) -> io::Result<Target>
    ensures { name.now ≡ [] → IsErr result }
{
    if name.is_empty() {
        return Err(io::Error::from(ErrorKind::InvalidInput));
    }
    let found = found_at(rt, name)?;
    let end = followed(rt, name, found)?;
    match (found, end) {
        (None, Some(path)) => Ok(Target { path, found: None }),
        (None, None) => Err(io::Error::from(ErrorKind::NotFound)),
        (Some(found), Some(path)) if !found.in_place => replaced(rt, path, found),
        (Some(found), _) => in_place(rt, name, found),
    }
}

/// The file that the name stands for, as the system tells; None where there is none.
fn found_at<R: Files>(rt: &R, name: &str) -> io::Result<Option<Found>> {
    match fs::metadata(rt, name) {
        Ok(metadata) => Ok(Some(Found::of(&metadata))),
        Err(error) if error.kind() == ErrorKind::NotFound => Ok(None),
        Err(error) => Err(error),
    }
}

/// The path that the links lead to, each of which leads to this file, or to none yet. None where a link is
/// one of the system's own, as `/dev/stdout` leads to one, or leads elsewhere.
fn followed<R: Files + AllocGlobal>(
    rt: &R,
    name: &str,
    file: Option<Found>,
) -> io::Result<Option<String>> {
    let mut path = PathBuf::from_str(rt.alloc(), name)?;
    for _ in 0..MOST_LINKS {
        let Some(device) = link_at(rt, path.as_path())? else {
            return Ok(Some(path.into_string()));
        };
        path = led_to(rt, path.as_path())?;
        if is_of_system(rt, device) || !is_at(rt, path.as_path(), file) {
            return Ok(None);
        }
    }
    Err(io::Error::from(ErrorKind::InvalidInput))
}

/// The device on which the link at the path lies. None where something else is there, or nothing.
fn link_at<R: Files>(rt: &R, path: Path<'_>) -> io::Result<Option<u64>> {
    match fs::symlink_metadata(rt, path) {
        Ok(metadata) if metadata.is_symlink() => Ok(Some(metadata.dev())),
        Ok(_) => Ok(None),
        Err(error) if error.kind() == ErrorKind::NotFound => Ok(None),
        Err(error) => Err(error),
    }
}

/// The path that the link leads to.
fn led_to<R: Files + AllocGlobal>(rt: &R, link: Path<'_>) -> io::Result<PathBuf> {
    let named = fs::read_link(rt, link)?;
    let folder = link.parent().unwrap_or(Path::new(""));
    Ok(folder.join(rt.alloc(), named)?)
}

/// Whether links on this device are the system's own, which lead to open files and not to paths: it is the one
/// where the system tells of processes.
fn is_of_system<R: Files>(rt: &R, device: u64) -> bool {
    match fs::metadata(rt, "/proc/self") {
        Ok(system) => system.dev() == device,
        Err(_) => false,
    }
}

/// Whether this file is at the path, with its links followed; for None, whether none is there or the system
/// doesn't tell.
fn is_at<R: Files>(rt: &R, path: Path<'_>, file: Option<Found>) -> bool {
    match (fs::metadata(rt, path), file) {
        (Ok(metadata), Some(file)) => Identity::of(&metadata) == file.identity,
        (Err(_), None) => true,
        _ => false,
    }
}

/// A file that is replaced, which can be written.
fn replaced<R: Files>(rt: &R, path: String, found: Found) -> io::Result<Target> {
    OpenOptions::new().write(true).open(rt, path.as_str())?;
    Ok(Target {
        path,
        found: Some(found),
    })
}

/// A file that is written as it stands, which is no folder.
fn in_place<R: AllocGlobal>(rt: &R, name: &str, found: Found) -> io::Result<Target> {
    if found.is_folder {
        return Err(io::Error::from(ErrorKind::IsADirectory));
    }
    let mut found = found;
    found.in_place = true;
    Ok(Target {
        path: String::from_str(rt.alloc(), name)?,
        found: Some(found),
    })
}
