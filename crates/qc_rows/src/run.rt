//! One run of a case.

use crate::case::{Case, Named, Store};
use qc_io::{MemShelf, MemSink};
use qc_num::OutOfMemory;
use std::alloc::Global;

/// How a run is made.
#[derive(Clone, Copy)]
pub enum Trial<'a> {
    /// As the case says.
    Plain,
    /// The call of this number of the store fails too.
    Failing(Store, u64),
    /// The file of this name is cut to this length.
    Cut(&'a str, usize),
}

impl Trial<'_> {
    /// The bytes of a file of the case before the run.
    pub fn bytes_of<'f>(self, file: &'f Named) -> &'f [u8] {
        let bytes = file.bytes.as_slice();
        match self {
            Trial::Cut(name, length) if name == file.name.as_str() => {
                &bytes[..length.min(bytes.len())]
            }
            _ => bytes,
        }
    }

    /// The further call of the store that fails.
    fn failing(self, store: Store) -> Option<u64> {
        match self {
            Trial::Failing(which, call) if which == store => Some(call),
            _ => None,
        }
    }
}

/// What came back from a run.
#[derive(Drop)]
pub struct Ran {
    pub status: u8,
    pub shelf: MemShelf,
    pub sink: MemSink,
}

impl Ran {
    /// How many calls of the store the run made.
    pub fn calls(&self, store: Store) -> u64 {
        match store {
            Store::Shelf => self.shelf.calls(),
            Store::Sink => self.sink.calls(),
        }
    }
}

/// A shelf with the files of the case.
fn with_files(alloc: Global, files: &[Named], trial: Trial<'_>) -> Result<MemShelf, OutOfMemory> {
    let mut shelf = MemShelf::new(alloc)?;
    for file in files {
        shelf.put(file.name.as_str(), trial.bytes_of(file))?;
    }
    Ok(shelf)
}

fn shelf_of(alloc: Global, case: &Case, trial: Trial<'_>) -> Result<MemShelf, OutOfMemory> {
    let mut shelf = with_files(alloc, case.files.as_slice(), trial)?;
    if let Some(most) = case.pieces {
        shelf.pieces(most.max(1));
    }
    if let Some(call) = trial.failing(Store::Shelf) {
        shelf.fail(call)?;
    }
    for call in &case.shelf_fails {
        shelf.fail(*call)?;
    }
    Ok(shelf)
}

fn sink_of(alloc: Global, case: &Case, trial: Trial<'_>) -> Result<MemSink, OutOfMemory> {
    let mut sink = MemSink::new(alloc)?;
    if let Some(call) = trial.failing(Store::Sink) {
        sink.fail(call)?;
    }
    for call in &case.sink_fails {
        sink.fail(*call)?;
    }
    Ok(sink)
}

/// Runs the program on what the case gives.
pub fn run(alloc: Global, case: &Case, trial: Trial<'_>) -> Result<Ran, OutOfMemory> {
    let mut shelf = shelf_of(alloc, case, trial)?;
    let mut sink = sink_of(alloc, case, trial)?;
    let ended = qc_top::run(alloc, case.words.as_slice(), &mut shelf, &mut sink);
    Ok(Ran {
        status: ended.status.code(),
        shelf,
        sink,
    })
}
