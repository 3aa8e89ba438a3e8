//! The lines that are said.

use crate::place::Place;
use qc_num::OutOfMemory;
use std::alloc::{AllocError, Global};

/// How many bytes of others are shown at most.
const MOST_SHOWN: usize = 60;

/// The lines that are said, each with the program's name ahead. Where memory is wanting for one of them, or for what it
/// needs, none is told.
#[derive(Drop)]
pub struct Page {
    alloc: Global,
    said: String,
    is_short: bool,
}

impl Page {
    /// Nothing is said yet.
    pub fn new(alloc: Global) -> Page {
        Page {
            alloc,
            said: String::new(alloc),
            is_short: false,
        }
    }

    /// What takes memory takes it from here.
    pub fn alloc(&self) -> Global {
        self.alloc
    }

    /// What was made for a line, where there was memory for it.
    pub fn unless_short<T: Drop>(&mut self, made: Result<T, OutOfMemory>) -> Option<T> {
        match made {
            Ok(made) => Some(made),
            Err(OutOfMemory) => {
                self.is_short = true;
                None
            }
        }
    }

    /// The lines; none where memory was wanting for them.
    pub fn lines(&self) -> Option<&[u8]> {
        if self.is_short {
            None
        } else {
            Some(self.said.as_bytes())
        }
    }

    /// Begins a line.
    pub fn line(&mut self) -> &mut Page {
        self.text("qc: ")
    }

    /// Begins a line on what stands at a place.
    pub fn on(&mut self, place: Place<'_>) -> &mut Page {
        self.line().at(place).text(": ")
    }

    /// Begins a note on what stands at a place.
    pub fn note(&mut self, place: Place<'_>) -> &mut Page {
        self.line().text("note: ").at(place).text(": ")
    }

    /// Ends the line that was begun.
    pub fn end(&mut self) {
        self.text("\n");
    }

    /// A text of ours, as it is.
    pub fn text(&mut self, text: &str) -> &mut Page {
        if !self.is_short && self.said.push_str(text).is_err() {
            self.is_short = true;
        }
        self
    }

    /// A word of others as it is, but for what steers a terminal.
    pub fn word(&mut self, word: &str) -> &mut Page {
        for c in word.chars() {
            self.letter(c);
        }
        self
    }

    /// Bytes of a file between double quotes: text as it is, and all else by its bytes. A long one is cut.
    pub fn shown(&mut self, bytes: &[u8]) -> &mut Page {
        let front = bytes.get(..MOST_SHOWN).unwrap_or(bytes);
        self.text("\"");
        for chunk in front.utf8_chunks() {
            self.word(chunk.valid());
            self.bytes(chunk.invalid());
        }
        self.text(if front.len() < bytes.len() {
            "\".."
        } else {
            "\""
        })
    }

    /// A number.
    pub fn number(&mut self, number: i64) -> &mut Page {
        let digits = format!(in self.alloc; "{number}");
        self.digits(digits)
    }

    /// How many there are.
    pub fn count(&mut self, count: u64) -> &mut Page {
        let digits = format!(in self.alloc; "{count}");
        self.digits(digits)
    }

    /// So many ticks, with their unit.
    pub fn ticks(&mut self, count: u64) -> &mut Page {
        self.count(count)
            .text(if count == 1 { " tick" } else { " ticks" })
    }

    /// So many bays, or decimetres, with their unit.
    pub fn rail(&mut self, count: u64, in_decimetres: bool) -> &mut Page {
        self.count(count).text(match (in_decimetres, count) {
            (true, 1) => " decimetre",
            (true, _) => " decimetres",
            (false, 1) => " bay",
            (false, _) => " bays",
        })
    }

    /// Where something stands.
    pub fn at(&mut self, place: Place<'_>) -> &mut Page {
        self.word(place.file);
        if place.line > 0 {
            self.text(", line ").count(place.line as u64);
        }
        if place.record > 0 {
            self.text(", record ").count(u64::from(place.record));
        }
        self
    }

    /// What a number is written as, where there was memory for it.
    fn digits(&mut self, digits: Result<String, AllocError>) -> &mut Page {
        match digits {
            Ok(digits) => self.text(digits.as_str()),
            Err(_) => {
                self.is_short = true;
                self
            }
        }
    }

    /// A character, and a question mark for one that steers a terminal.
    fn letter(&mut self, c: char) {
        if c == '\t' {
            self.text("\\t");
        } else if !self.is_short
            && self
                .said
                .push(if c.is_control() { '?' } else { c })
                .is_err()
        {
            self.is_short = true;
        }
    }

    /// Bytes that are no text, by their numbers.
    fn bytes(&mut self, bytes: &[u8]) {
        for byte in bytes {
            self.byte(*byte);
        }
    }

    /// A byte that is no text, by its number.
    fn byte(&mut self, byte: u8) {
        let code = format!(in self.alloc; "\\x{byte:02X}");
        self.digits(code);
    }
}
