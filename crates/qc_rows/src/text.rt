//! The texts of a case file, and the bytes that they stand for.

use anyhow::{Context, Result};
use serde::Deserialize;
use std::alloc::{AllocError, Global};
use std::collections::BTreeMap;

/// The texts that cases share, by their names.
pub type Texts = BTreeMap<String, String>;

/// A part of a text.
#[derive(Drop, Deserialize)]
#[serde(untagged)]
pub enum Part {
    Plain(String),
    Bytes(Vec<u8>),
    /// A text so many times. Where it has holes `{D M S F W}`, each stands for a number that changes from
    /// turn to turn.
    Repeated { times: u64, text: String },
}

/// A text: `@NAME` for a shared one, the text itself, parts one after the other, or the text of which only a
/// part from its front is wanted.
#[derive(Drop, Deserialize)]
#[serde(untagged)]
pub enum Text {
    Plain(String),
    Joined(Vec<Part>),
    Front { front: String },
}

/// The number of a hole `D M S F W` and its width: with the turns counted from 0, `turn / D mod M * S + F`.
fn hole(text: &str, turn: u64) -> Option<(u64, u64)> {
    let mut numbers = text.split(' ').map_while(|word| word.parse::<u64>().ok());
    let value = turn
        .checked_div(numbers.next()?)?
        .checked_rem(numbers.next()?)?
        .checked_mul(numbers.next()?)?
        .checked_add(numbers.next()?)?;
    Some((value, numbers.next()?))
}

/// The number of a hole, filled with zeros to its width, and the text behind the hole.
fn add_hole(alloc: Global, piece: &str, turn: u64, bytes: &mut Vec<u8>) -> Result<()> {
    let (numbers, text) = piece.split_once('}').context("a hole without an end")?;
    let (value, width) = hole(numbers, turn).context("a hole without its numbers")?;
    let digits = format!(in alloc; "{value}")?;
    for _ in digits.len() as u64..width {
        bytes.push(b'0')?;
    }
    bytes.extend_from_slice(digits.as_bytes())?;
    bytes.extend_from_slice(text.as_bytes())?;
    Ok(())
}

/// One turn of a repeated text.
fn add_turn(alloc: Global, text: &str, turn: u64, bytes: &mut Vec<u8>) -> Result<()> {
    for (at, piece) in text.split('{').enumerate() {
        if at == 0 {
            bytes.extend_from_slice(piece.as_bytes())?;
        } else {
            add_hole(alloc, piece, turn, bytes)?;
        }
    }
    Ok(())
}

fn add_copies(text: &str, times: u64, bytes: &mut Vec<u8>) -> Result<(), AllocError> {
    for _ in 0..times {
        bytes.extend_from_slice(text.as_bytes())?;
    }
    Ok(())
}

fn add_turns(alloc: Global, text: &str, times: u64, bytes: &mut Vec<u8>) -> Result<()> {
    for turn in 0..times {
        add_turn(alloc, text, turn, bytes)?;
    }
    Ok(())
}

fn add_part(alloc: Global, part: &Part, bytes: &mut Vec<u8>) -> Result<()> {
    match part {
        Part::Plain(text) => bytes.extend_from_slice(text.as_bytes())?,
        Part::Bytes(more) => bytes.extend_from_slice(more.as_slice())?,
        Part::Repeated { times, text } if text.contains('{') => {
            add_turns(alloc, text.as_str(), *times, bytes)?;
        }
        Part::Repeated { times, text } => add_copies(text.as_str(), *times, bytes)?,
    }
    Ok(())
}

fn joined(alloc: Global, parts: &[Part]) -> Result<Vec<u8>> {
    let mut bytes = Vec::new(alloc);
    for part in parts {
        add_part(alloc, part, &mut bytes)?;
    }
    Ok(bytes)
}

/// The bytes of a text, or of the shared one that it names.
fn plain(alloc: Global, text: &str, shared: &Texts) -> Result<Vec<u8>> {
    let text = match text.strip_prefix('@') {
        Some(name) => shared.get(name).context("no such shared text")?.as_str(),
        None => text,
    };
    Ok(Vec::from_slice(alloc, text.as_bytes())?)
}

/// The bytes that a text stands for.
pub fn bytes_of(alloc: Global, text: &Text, shared: &Texts) -> Result<Vec<u8>> {
    match text {
        Text::Plain(text) | Text::Front { front: text } => plain(alloc, text.as_str(), shared),
        Text::Joined(parts) => joined(alloc, parts.as_slice()),
    }
}
