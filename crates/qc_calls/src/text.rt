//! The texts of answers.

use anyhow::{Result, ensure};
use std::alloc::Global;

/// A number, or `none`.
pub fn number(alloc: Global, number: Option<u64>) -> Result<String> {
    match number {
        Some(number) => Ok(format!(in alloc; "{number}")?),
        None => plain(alloc, "none"),
    }
}

pub fn yes_or_no(alloc: Global, is: bool) -> Result<String> {
    plain(alloc, if is { "yes" } else { "no" })
}

pub fn plain(alloc: Global, text: &str) -> Result<String> {
    Ok(String::from_str(alloc, text)?)
}

/// An error that tells what came in place of what, unless a call, by its number from 0, answered as it must.
pub fn compare(call: usize, came: &str, wanted: &str) -> Result<()> {
    ensure!(came == wanted, "call {call}: {came} in place of {wanted}");
    Ok(())
}
