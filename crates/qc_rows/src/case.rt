//! A case: what a run is given, and what must come back.

use serde::Deserialize;

/// A file that is on the shelf before the run.
#[derive(Drop)]
pub struct Named {
    pub name: String,
    pub bytes: Vec<u8>,
}

/// What a run writes its report to, or where its files are.
#[derive(Clone, Copy, PartialEq, Eq, Drop, Deserialize)]
#[serde(rename_all = "lowercase")]
pub enum Store {
    Shelf,
    Sink,
}

/// How bytes must be: those of a file after a run, or those on the sink.
#[derive(Clone, Copy, PartialEq, Eq)]
pub enum Kind {
    /// There is no such file.
    Absent,
    /// Any bytes.
    Any,
    /// Exactly these bytes.
    Whole,
    /// A part of these bytes from their front, and not all of them.
    Front,
}

/// What bytes must be.
#[derive(Drop)]
pub struct Wanted {
    pub kind: Kind,
    pub bytes: Vec<u8>,
}

/// What a file must be after a run.
#[derive(Drop)]
pub struct WantedFile {
    pub name: String,
    pub wanted: Wanted,
}

/// What must come back from a run. A file that is given and isn't named here is to be kept, and a word
/// that names no file is to name none.
#[derive(Drop)]
pub struct Outcome {
    pub status: u8,
    pub report: Wanted,
    pub files: Vec<WantedFile>,
}

/// What a run is given and what must come back: one of the outcomes. In a sweep the outcomes come in
/// order, each in one run or more, and the last one in the first run without a failure. Where a file is cut
/// each run comes to one of the outcomes, and each outcome comes in some run.
#[derive(Drop)]
pub struct Case {
    /// The words of the command line.
    pub words: Vec<String>,
    pub files: Vec<Named>,
    /// The most bytes that a call of the shelf takes or gives.
    pub pieces: Option<usize>,
    /// The calls of the shelf that fail, counted from 1.
    pub shelf_fails: Vec<u64>,
    /// The calls of the sink that fail.
    pub sink_fails: Vec<u64>,
    /// The store whose calls fail one after the other, each in a run of its own.
    pub sweep: Option<Store>,
    /// The file that is cut at every byte, each time in a run of its own.
    pub cut: Option<String>,
    pub outcomes: Vec<Outcome>,
}

impl Outcome {
    /// Whether it says what becomes of the file.
    pub fn speaks_of(&self, name: &str) -> bool {
        self.files.iter().any(|file| file.name.as_str() == name)
    }
}

impl Case {
    /// Whether the file is given.
    pub fn gives(&self, name: &str) -> bool {
        self.files.iter().any(|file| file.name.as_str() == name)
    }
}
