//! What came back in place of what, as text.

use crate::case::{Case, Kind, Outcome};
use crate::run::{Ran, Trial};
use std::alloc::{AllocError, Global};

/// How many bytes are shown at most.
const SHOWN: usize = 120;

/// How many of them stand before the first difference.
const BEFORE: usize = 20;

/// Puts a byte behind the text, as it is shown in quotes.
fn add_byte(alloc: Global, text: &mut String, byte: u8) -> Result<(), AllocError> {
    match byte {
        b'\n' => text.push_str("\\n"),
        b'"' | b'\\' => {
            text.push('\\')?;
            text.push(char::from(byte))
        }
        32..=126 => text.push(char::from(byte)),
        _ => text.push_str(format!(in alloc; "\\x{byte:02X}")?.as_str()),
    }
}

/// Some of the bytes, from a place on, in quotes.
fn quoted(alloc: Global, bytes: &[u8], from: usize) -> Result<String, AllocError> {
    let mut text = String::from_str(alloc, "\"")?;
    for byte in bytes.iter().skip(from).take(SHOWN) {
        add_byte(alloc, &mut text, *byte)?;
    }
    text.push('"')?;
    let count = bytes.len();
    if from > 0 || count > SHOWN {
        text.push_str(format!(in alloc; " from byte {from} of {count}")?.as_str())?;
    }
    Ok(text)
}

/// Where to begin to show bytes that are compared: shortly before they differ.
fn start(wanted: &[u8], got: &[u8]) -> usize {
    let same = wanted
        .iter()
        .zip(got)
        .take_while(|(wanted, got)| wanted == got)
        .count();
    same.saturating_sub(BEFORE)
}

/// Whether the bytes are what is wanted; `None` stands for no such file.
fn is_met(kind: Kind, bytes: &[u8], got: Option<&[u8]>) -> bool {
    match (kind, got) {
        (Kind::Absent, None) | (Kind::Any, Some(_)) => true,
        (Kind::Whole, Some(got)) => got == bytes,
        (Kind::Front, Some(got)) => got.len() < bytes.len() && bytes.starts_with(got),
        _ => false,
    }
}

/// The differences of a run from an outcome.
#[derive(Drop)]
struct Differences {
    alloc: Global,
    text: String,
}

impl Differences {
    fn add(&mut self, part: &str) -> Result<(), AllocError> {
        if !self.text.is_empty() {
            self.text.push_str("; ")?;
        }
        self.text.push_str(part)
    }

    /// Adds what bytes are in place of what is wanted of them.
    fn compare(
        &mut self,
        what: &str,
        kind: Kind,
        bytes: &[u8],
        got: Option<&[u8]>,
    ) -> Result<(), AllocError> {
        if is_met(kind, bytes, got) {
            return Ok(());
        }
        let alloc = self.alloc;
        let from = start(bytes, got.unwrap_or(&[]));
        let wanted = match kind {
            Kind::Absent => String::from_str(alloc, "no file")?,
            Kind::Any => String::from_str(alloc, "any")?,
            Kind::Whole => quoted(alloc, bytes, from)?,
            Kind::Front => {
                let whole = quoted(alloc, bytes, from)?;
                format!(in alloc; "a front of {whole}")?
            }
        };
        let got = match got {
            Some(got) => quoted(alloc, got, from)?,
            None => String::from_str(alloc, "no file")?,
        };
        self.add(format!(in alloc; "{what} {got} in place of {wanted}")?.as_str())
    }

    /// The same of a file.
    fn compare_file(
        &mut self,
        name: &str,
        kind: Kind,
        bytes: &[u8],
        ran: &Ran,
    ) -> Result<(), AllocError> {
        let what = format!(in self.alloc; "file {name}")?;
        self.compare(what.as_str(), kind, bytes, ran.shelf.bytes(name))
    }

    /// The files of which the outcome speaks.
    fn add_files(&mut self, outcome: &Outcome, ran: &Ran) -> Result<(), AllocError> {
        for file in &outcome.files {
            let bytes = file.wanted.bytes.as_slice();
            self.compare_file(file.name.as_str(), file.wanted.kind, bytes, ran)?;
        }
        Ok(())
    }

    /// The given files of which it doesn't.
    fn add_kept(
        &mut self,
        case: &Case,
        trial: Trial<'_>,
        outcome: &Outcome,
        ran: &Ran,
    ) -> Result<(), AllocError> {
        for file in &case.files {
            let name = file.name.as_str();
            if !outcome.speaks_of(name) {
                self.compare_file(name, Kind::Whole, trial.bytes_of(file), ran)?;
            }
        }
        Ok(())
    }

    /// The words of the command line that are neither.
    fn add_words(&mut self, case: &Case, outcome: &Outcome, ran: &Ran) -> Result<(), AllocError> {
        for word in &case.words {
            let name = word.as_str();
            if !name.is_empty() && !case.gives(name) && !outcome.speaks_of(name) {
                self.compare_file(name, Kind::Absent, &[], ran)?;
            }
        }
        Ok(())
    }
}

/// All in which the run differs from the outcome; empty where it came to it.
pub fn difference(
    alloc: Global,
    case: &Case,
    trial: Trial<'_>,
    outcome: &Outcome,
    ran: &Ran,
) -> Result<String, AllocError> {
    let text = String::new(alloc);
    let mut found = Differences { alloc, text };
    let got = ran.status;
    let wanted = outcome.status;
    if got != wanted {
        found.add(format!(in alloc; "status {got} in place of {wanted}")?.as_str())?;
    }
    let report = &outcome.report;
    found.compare(
        "report",
        report.kind,
        report.bytes.as_slice(),
        Some(ran.sink.bytes()),
    )?;
    found.add_files(outcome, ran)?;
    found.add_kept(case, trial, outcome, ran)?;
    found.add_words(case, outcome, ran)?;
    Ok(found.text)
}
