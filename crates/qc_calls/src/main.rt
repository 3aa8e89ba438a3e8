//! Runs tables of inner calls and prints one line a row: whether it answers as it must.
//!
//! `starts_rows.rt` has calls on least starts and on the leaves that close nodes. What definitions give on worked examples stands in `proofs/Rows.antt`.
//! A line is `ok NAME` or `FAILED NAME: ` with what came in place of what; the status is 1 where a row failed.
#![tactic(auto)]

mod crew;
mod files;
mod instance;
mod starts;
mod starts_rows;
mod text;

use anyhow::Result;
use starts_rows::STARTS;
use std::process::ExitCode;

// Prints the line of a row; whether it held.
fn show<R: Print + AllocGlobal>(rt: &R, name: &str, came: Result<()>) -> Result<bool> {
    match came {
        Ok(()) => println!(rt; "ok {name}")?,
        Err(why) => {
            println!(rt; "FAILED {name}: {why}")?;
            return Ok(false);
        }
    }
    Ok(true)
}

// Runs the rows of calls on least starts; whether all held.
fn run_starts<R: Print + AllocGlobal>(rt: &R) -> Result<bool> {
    let mut all_held = true;
    for row in STARTS {
        all_held = show(rt, row.name, starts::run(rt.alloc(), row))? && all_held;
    }
    Ok(all_held)
}

fn main(rt: HostRuntime) -> Result<ExitCode> {
    Ok(if run_starts(&rt)? {
        ExitCode::SUCCESS
    } else {
        ExitCode::FAILURE
    })
}
