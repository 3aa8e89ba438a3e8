//! Runs cases of the program and prints one line for each: whether what came back is what was wanted.
//!
//! A case is a file `NAME.case` in a folder of its command, in TOML: `words`, `file.NAME` and what fails are
//! what the run is given, and each `[[outcome]]` has the status, the report and the files that must come
//! back. `docs/ROWS.md` has the whole format.
#![tactic(auto)]

mod case;
mod difference;
mod play;
mod run;
mod text;
mod told;

use anyhow::Result;
use case::Case;
use play::play;
use std::process::ExitCode;
use std::rt::{Env, Files};
use std::{env, fs};
use text::Texts;
use told::read_case;

/// The file of the folder with the texts that cases share.
const TEXTS: &str = "texts.toml";

/// The folder of the cases: the first word of the command line, or where the program runs.
fn folder<R: Env + AllocGlobal>(rt: &R) -> Result<String> {
    match env::args(rt)?.nth(1) {
        Some(folder) => Ok(folder),
        None => Ok(String::from_str(rt.alloc(), ".")?),
    }
}

/// The names in the folder, each behind `front`.
fn add_names<R: Files + AllocGlobal + Clone + Drop>(
    rt: &R,
    folder: &str,
    front: &str,
    names: &mut Vec<String>,
) -> Result<()> {
    for entry in fs::read_dir(rt, folder)? {
        let entry = entry?;
        let name = entry.file_name();
        names.push(format!(in rt.alloc(); "{front}{name}")?)?;
    }
    Ok(())
}

/// The names of the case files of the folder and of the folders in it, sorted.
fn file_names<R: Files + AllocGlobal + Clone + Drop>(rt: &R, folder: &str) -> Result<Vec<String>> {
    let mut entries = Vec::new(rt.alloc());
    add_names(rt, folder, "", &mut entries)?;
    let mut names = Vec::new(rt.alloc());
    for entry in entries {
        let path = format!(in rt.alloc(); "{folder}/{entry}")?;
        if fs::metadata(rt, path.as_str())?.is_dir() {
            let front = format!(in rt.alloc(); "{entry}/")?;
            add_names(rt, path.as_str(), front.as_str(), &mut names)?;
        } else if entry.as_str() != TEXTS {
            names.push(entry)?;
        }
    }
    names.sort()?;
    Ok(names)
}

/// The case of a file of the folder.
fn case_in<R: Files + AllocGlobal>(
    rt: &R,
    folder: &str,
    file: &str,
    shared: &Texts,
) -> Result<Case> {
    let path = format!(in rt.alloc(); "{folder}/{file}")?;
    let text = fs::read_to_string(rt, path.as_str())?;
    read_case(rt.alloc(), text.as_str(), shared)
}

/// Prints the line of a file of the folder; whether its case held.
fn show<R: Files + Print + AllocGlobal>(
    rt: &R,
    folder: &str,
    file: &str,
    shared: &Texts,
) -> Result<bool> {
    let name = file.strip_suffix(".case").unwrap_or(file);
    let case = match case_in(rt, folder, file, shared) {
        Ok(case) => case,
        Err(why) => {
            let why = format!(in rt.alloc(); "{why}")?;
            let why = why.as_str().lines().next().unwrap_or("");
            println!(rt; "MALFORMED {name}: {why}")?;
            return Ok(false);
        }
    };
    if let Some(what) = play(rt.alloc(), &case)? {
        println!(rt; "FAILED {name}: {what}")?;
        return Ok(false);
    }
    println!(rt; "ok {name}")?;
    Ok(true)
}

/// The texts that the cases of the folder share; none where it has no such file.
fn shared_texts<R: Files + AllocGlobal>(rt: &R, folder: &str) -> Result<Texts> {
    let path = format!(in rt.alloc(); "{folder}/{TEXTS}")?;
    match fs::read_to_string(rt, path.as_str()) {
        Ok(text) => Ok(toml::from_str(rt.alloc(), text.as_str())?),
        Err(_) => Ok(Texts::new(rt.alloc())),
    }
}

/// Prints a line for each case of the folder, and ends with 0 where all held.
fn main(rt: HostRuntime) -> Result<ExitCode> {
    let folder = folder(&rt)?;
    let shared = shared_texts(&rt, folder.as_str())?;
    let files = file_names(&rt, folder.as_str())?;
    let mut all_held = !files.is_empty();
    for file in &files {
        all_held = show(&rt, folder.as_str(), file.as_str(), &shared)? && all_held;
    }
    Ok(if all_held {
        ExitCode::SUCCESS
    } else {
        ExitCode::FAILURE
    })
}
