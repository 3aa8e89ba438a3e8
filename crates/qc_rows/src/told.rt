//! A case as its file tells it.

use crate::case::{Case, Kind, Named, Outcome, Store, Wanted, WantedFile};
use crate::text::{Text, Texts, bytes_of};
use anyhow::{Result, ensure};
use serde::Deserialize;
use std::alloc::Global;
use std::collections::BTreeMap;

/// An outcome in a case file.
#[derive(Drop, Deserialize)]
#[serde(deny_unknown_fields)]
struct ToldOutcome {
    status: u8,
    report: Text,
    #[serde(default)]
    left: BTreeMap<String, Text>,
}

/// A case file.
#[derive(Drop, Deserialize)]
#[serde(deny_unknown_fields)]
struct Told {
    words: Vec<String>,
    #[serde(default)]
    file: BTreeMap<String, Text>,
    pieces: Option<usize>,
    #[serde(default)]
    shelf_fails: Vec<u64>,
    #[serde(default)]
    sink_fails: Vec<u64>,
    sweep: Option<Store>,
    cut: Option<String>,
    outcome: Vec<ToldOutcome>,
}

/// What a text says that bytes must be.
fn wanted_of(alloc: Global, text: &Text, shared: &Texts) -> Result<Wanted> {
    let kind = match text {
        Text::Plain(name) if name.as_str() == "@absent" => Kind::Absent,
        Text::Plain(name) if name.as_str() == "@any" => Kind::Any,
        Text::Front { .. } => Kind::Front,
        _ => Kind::Whole,
    };
    let bytes = match kind {
        Kind::Absent | Kind::Any => Vec::new(alloc),
        Kind::Front | Kind::Whole => bytes_of(alloc, text, shared)?,
    };
    Ok(Wanted { kind, bytes })
}

fn outcome_of(alloc: Global, told: ToldOutcome, shared: &Texts) -> Result<Outcome> {
    let ToldOutcome {
        status,
        report,
        left,
    } = told;
    let mut files = Vec::new(alloc);
    for (name, text) in left {
        let wanted = wanted_of(alloc, &text, shared)?;
        files.push(WantedFile { name, wanted })?;
    }
    let report = wanted_of(alloc, &report, shared)?;
    Ok(Outcome {
        status,
        report,
        files,
    })
}

fn outcomes_of(alloc: Global, told: Vec<ToldOutcome>, shared: &Texts) -> Result<Vec<Outcome>> {
    let mut outcomes = Vec::new(alloc);
    for outcome in told {
        outcomes.push(outcome_of(alloc, outcome, shared)?)?;
    }
    Ok(outcomes)
}

fn files_of(alloc: Global, told: BTreeMap<String, Text>, shared: &Texts) -> Result<Vec<Named>> {
    let mut files = Vec::new(alloc);
    for (name, text) in told {
        let bytes = bytes_of(alloc, &text, shared)?;
        files.push(Named { name, bytes })?;
    }
    Ok(files)
}

/// The case that a case file tells.
pub fn read_case(alloc: Global, text: &str, shared: &Texts) -> Result<Case> {
    let told: Told = toml::from_str(alloc, text)?;
    let is_cut = told.cut.is_some();
    let fails = told.sweep.is_some() || !told.shelf_fails.is_empty() || !told.sink_fails.is_empty();
    ensure!(!is_cut || !fails, "a cut beside a failing call");
    ensure!(!told.outcome.is_empty(), "no outcome");
    Ok(Case {
        words: told.words,
        files: files_of(alloc, told.file, shared)?,
        pieces: told.pieces,
        shelf_fails: told.shelf_fails,
        sink_fails: told.sink_fails,
        sweep: told.sweep,
        cut: told.cut,
        outcomes: outcomes_of(alloc, told.outcome, shared)?,
    })
}
