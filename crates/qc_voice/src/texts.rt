//! The files that a command was given, and what is read of them again.
ghost use Rattle.qc_voice.specs.Frame.{LeavesFiles};

use qc_io::{ReadAll, Shelf, read_all};
use qc_model::Instance;
use qc_num::{Bytes, OutOfMemory};
use qc_page::Page;
use qc_past::{Past, PastError, read_past};
use qc_run::Inputs;
use qc_ship::{Ship, ShipError, read_ship};
use qc_stow::{StowError, read_stow};
use qc_tasks::{TasksError, tasks_of};
use qc_words::Request;

/// The greatest length of a file that is read whole, in bytes.
const FILE_LIMIT: usize = 8_388_608;

/// The names of the files that a command reads, and of the plan that a search writes.
#[derive(Clone, Copy)]
pub(crate) struct Names<'a> {
    pub(crate) read: Inputs<'a>,
    pub(crate) written: Option<&'a str>,
}

/// The names of the files of a request; none where it reads no file.
pub(crate) fn names_of<'a>(request: &Request<'a>) -> Option<Names<'a>> {
    match *request {
        Request::Reads(_, read) => Some(Names {
            read,
            written: None,
        }),
        Request::Plans(asked) => Some(Names {
            read: asked.inputs,
            written: Some(asked.plan),
        }),
        Request::Odds(asked) => Some(Names {
            read: asked.inputs,
            written: None,
        }),
        Request::Rest(asked) => Some(Names {
            read: asked.inputs,
            written: None,
        }),
        Request::Moves(_)
        | Request::Make { .. }
        | Request::Help(_)
        | Request::Version
        | Request::Usage => None,
    }
}

/// A file, read again, with its name; none where none is named, or where it can't be read again or is too large.
pub(crate) fn again<'a, S: Shelf>(
    page: &mut Page,
    shelf: &mut S,
    name: Option<&'a str>,
) -> Option<(&'a str, Bytes)>
    ensures { LeavesFiles (S.Sink.view shelf.old) (S.Sink.view shelf.new) }
{
    let Some(name) = name else {
        return None;
    };
    match read_all(page.alloc(), shelf, name, FILE_LIMIT) {
        Ok(bytes) => Some((name, bytes)),
        Err(ReadAll::ReadFault | ReadAll::TooLarge) => None,
        Err(ReadAll::OutOfMemory) => page.unless_short(Err(OutOfMemory)),
    }
}

/// The ship of a ship file; none where that has a fault.
pub(crate) fn ship_of(page: &mut Page, bytes: &[u8]) -> Option<Ship> {
    match read_ship(page.alloc(), bytes) {
        Ok(ship) => Some(ship),
        Err(ShipError::Fault(_)) => None,
        Err(ShipError::OutOfMemory) => page.unless_short(Err(OutOfMemory)),
    }
}

/// The past tasks of a table; none where that has a fault.
pub(crate) fn past_of(page: &mut Page, bytes: &[u8]) -> Option<Past> {
    match read_past(page.alloc(), bytes) {
        Ok(past) => Some(past),
        Err(PastError::Fault(_)) => None,
        Err(PastError::OutOfMemory) => page.unless_short(Err(OutOfMemory)),
    }
}

/// The instance of a ship and its list; none where the list has a fault.
fn instance_in(page: &mut Page, ship: &Ship, bytes: &[u8]) -> Option<Instance> {
    match read_stow(page.alloc(), bytes, ship) {
        Ok(moves) => {
            let inst = tasks_of(page.alloc(), ship, &moves);
            drop(moves);
            match inst {
                Ok(inst) => Some(inst),
                Err(TasksError::Ring(_)) => None,
                Err(TasksError::OutOfMemory) => page.unless_short(Err(OutOfMemory)),
            }
        }
        Err(StowError::Fault(_)) => None,
        Err(StowError::OutOfMemory) => page.unless_short(Err(OutOfMemory)),
    }
}

/// The instance of a ship file and of the list, which is read again; none where one of them has a fault.
pub(crate) fn instance_of<S: Shelf>(
    page: &mut Page,
    shelf: &mut S,
    inputs: &Inputs<'_>,
    ship: &[u8],
) -> Option<Instance>
    ensures { LeavesFiles (S.Sink.view shelf.old) (S.Sink.view shelf.new) }
{
    let (_, list) = again(page, shelf, inputs.stow)?;
    let ship = ship_of(page, ship)?;
    instance_in(page, &ship, list.as_slice())
}
