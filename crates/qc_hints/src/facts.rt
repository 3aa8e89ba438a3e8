//! A ship file's keys: their values, and where they stand.

use crate::toml_lines::{KeyLine, find_key, key_lines};
use crate::wanted::wanted_at;
use qc_num::OutOfMemory;
use qc_page::Place;
use qc_ship::Key;
use std::alloc::Global;
use toml::{Table, Value, table_from_str};

/// The keys of a ship file that is a text in TOML.
pub(crate) struct Facts<'a> {
    pub(crate) file: &'a str,
    pub(crate) lines: Vec<KeyLine<'a>>,
    pub(crate) table: Table,
}

// By name and not derived: to let them go is one call then, in place of the pieces of all fields.
impl Drop for Facts<'_> {
    fn drop(self) {
        let Facts {
            file: _,
            lines: _,
            table: _,
        } = self;
    }
}

/// The keys of a ship file; none where it is no text in TOML.
pub(crate) fn facts_of<'a>(
    alloc: Global,
    file: &'a str,
    bytes: &'a [u8],
) -> Result<Option<Facts<'a>>, OutOfMemory> {
    let Ok(text) = std::str::from_utf8(bytes) else {
        return Ok(None);
    };
    match table_from_str(alloc, text) {
        Ok(table) => match key_lines(alloc, text) {
            Ok(lines) => Ok(Some(Facts { file, lines, table })),
            Err(OutOfMemory) => {
                drop(table);
                Err(OutOfMemory)
            }
        },
        Err(error) => {
            if error.is_memory() {
                Err(OutOfMemory)
            } else {
                Ok(None)
            }
        }
    }
}

/// Whether a ship file counts places in decimetres; false where it is no text in TOML.
pub fn counts_decimetres(alloc: Global, bytes: &[u8]) -> Result<bool, OutOfMemory> {
    match facts_of(alloc, "", bytes)? {
        Some(facts) => Ok(facts.in_decimetres()),
        None => Ok(false),
    }
}

/// A whole number that is a value.
pub(crate) fn whole(value: Option<&Value>) -> Option<i64> {
    match value {
        Some(Value::Integer(number)) => Some(*number),
        _ => None,
    }
}

impl<'a> Facts<'a> {
    /// Whether places are in decimetres.
    pub(crate) fn in_decimetres(&self) -> bool {
        self.table.contains_key("places")
    }

    /// What may stand at a key.
    pub(crate) fn wanted(&self, key: Key) -> &'static str {
        wanted_at(key, self.in_decimetres())
    }

    /// The elements of an array of the ship; none where the key has no array.
    pub(crate) fn elements(&self, key: &str) -> &[Value] {
        match self.table.get(key) {
            Some(Value::Array(array)) => array.as_slice(),
            _ => &[],
        }
    }

    /// An element of an array by its number, from 1.
    pub(crate) fn element(&self, key: &str, number: u32) -> Option<&Value> {
        match (number as usize).checked_sub(1) {
            Some(at) => self.elements(key).get(at),
            None => None,
        }
    }

    /// An element of an array by its number, from 1, that is a whole number.
    pub(crate) fn whole_element(&self, key: &str, number: u32) -> Option<i64> {
        whole(self.element(key, number))
    }

    /// A whole number at a key of the ship.
    pub(crate) fn number(&self, key: &str) -> Option<i64> {
        whole(self.table.get(key))
    }

    /// A whole number at a key of a crane.
    pub(crate) fn crane_number(&self, crane: u32, key: &str) -> Option<i64> {
        match self.element("crane", crane) {
            Some(Value::Table(table)) => whole(table.get(key)),
            _ => None,
        }
    }

    /// The line of a key, of a crane or, with 0, of the ship.
    fn line(&self, crane: u32, key: &str) -> Option<&KeyLine<'a>> {
        let lines = self.lines.as_slice();
        match find_key(lines, crane, key) {
            None if key == "crane" && crane == 0 => find_key(lines, 1, key),
            found => found,
        }
    }

    /// Where a key stands, of a crane or, with 0, of the ship; else where its crane begins.
    pub(crate) fn place(&self, crane: u32, key: &str) -> Place<'a> {
        let found = match self.line(crane, key) {
            None if crane > 0 => self.line(crane, "crane"),
            found => found,
        };
        match found {
            Some(found) => Place::at_line(self.file, found.line),
            None => Place::whole(self.file),
        }
    }

    /// What is written at a key; empty where that isn't on one line.
    pub(crate) fn value(&self, crane: u32, key: &str) -> &'a str {
        match self.line(crane, key) {
            Some(found) => found.value,
            None => "",
        }
    }
}
