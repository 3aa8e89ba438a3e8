//! The elements of a drawing.

use itoa::Buffer;
use qc_model::{Name, Phase};
use qc_num::{Bytes, OutOfMemory};
use std::alloc::Global;

/// A drawing that grows. Where memory is wanting for a piece, that and all further ones are left out.
#[derive(Drop)]
pub(crate) struct Page {
    text: Vec<u8>,
    is_short: bool,
}

impl Page {
    pub(crate) fn new(alloc: Global) -> Page {
        Page {
            text: Vec::new(alloc),
            is_short: false,
        }
    }

    /// The text of the drawing, unless memory was wanting.
    pub(crate) fn bytes(self) -> Result<Bytes, OutOfMemory> {
        if self.is_short {
            return Err(OutOfMemory);
        }
        Ok(Bytes::of(self.text))
    }

    pub(crate) fn put(&mut self, piece: &[u8]) {
        if !self.is_short {
            self.is_short = self.text.extend_from_slice(piece).is_err();
        }
    }

    pub(crate) fn put_number(&mut self, number: u64) {
        self.put(Buffer::new().format(number).as_bytes());
    }

    /// Puts a rectangle, whose style ends it.
    pub(crate) fn put_rect(&mut self, x: u64, y: u64, width: u64, height: u64, style: &[u8]) {
        self.put(b"<rect x=\"");
        self.put_number(x);
        self.put(b"\" y=\"");
        self.put_number(y);
        self.put(b"\" width=\"");
        self.put_number(width);
        self.put(b"\" height=\"");
        self.put_number(height);
        self.put(b"\" ");
        self.put(style);
    }

    /// Begins a straight line from one point to another, whose style is still to come.
    pub(crate) fn begin_line(&mut self, from: (u64, u64), to: (u64, u64)) {
        self.put(b"<line x1=\"");
        self.put_number(from.0);
        self.put(b"\" y1=\"");
        self.put_number(from.1);
        self.put(b"\" x2=\"");
        self.put_number(to.0);
        self.put(b"\" y2=\"");
        self.put_number(to.1);
        self.put(b"\" ");
    }

    /// Puts a straight line from one point to another.
    pub(crate) fn put_line(&mut self, from: (u64, u64), to: (u64, u64), style: &[u8]) {
        self.begin_line(from, to);
        self.put(style);
        self.put(b"/>\n");
    }

    /// Begins words, whose style is still to come.
    fn begin_text(&mut self, x: u64, y: u64) {
        self.put(b"<text x=\"");
        self.put_number(x);
        self.put(b"\" y=\"");
        self.put_number(y);
        self.put(b"\" ");
    }

    /// Begins words in a style.
    pub(crate) fn begin_words(&mut self, x: u64, y: u64, style: &[u8]) {
        self.begin_text(x, y);
        self.put(style);
        self.put(b">");
    }

    pub(crate) fn end_words(&mut self) {
        self.put(b"</text>\n");
    }

    /// Puts words.
    pub(crate) fn put_words(&mut self, x: u64, y: u64, style: &[u8], words: &[u8]) {
        self.begin_words(x, y, style);
        self.put(words);
        self.end_words();
    }

    /// Puts a number as words.
    pub(crate) fn put_figure(&mut self, x: u64, y: u64, style: &[u8], figure: u64) {
        self.begin_words(x, y, style);
        self.put_number(figure);
        self.end_words();
    }

    /// Puts the name of a crane in its ink.
    pub(crate) fn put_name(&mut self, x: u64, y: u64, style: &[u8], crane: u16, name: &Name) {
        self.begin_text(x, y);
        self.put(style);
        self.put(b" fill=\"");
        self.put(ink(crane));
        self.put(b"\">");
        self.put(name.as_bytes());
        self.end_words();
    }

    /// Puts a point of a line or of a band.
    pub(crate) fn put_point(&mut self, x: u64, y: u64) {
        self.put(b" ");
        self.put_number(x);
        self.put(b",");
        self.put_number(y);
    }
}

/// The colour of a phase.
pub(crate) fn colour(phase: Phase) -> &'static [u8; 7] {
    match phase {
        Phase::DeckOut => b"#9ecae1",
        Phase::HoldOut => b"#3182bd",
        Phase::HoldIn => b"#e6550d",
        Phase::DeckIn => b"#fdbe85",
    }
}

/// One of eight colours.
fn colour_of(colours: &[u8; 56], crane: u16) -> &[u8] {
    let from = 7 * (crane as usize % 8);
    &colours[from..from + 7]
}

/// The ink of a crane.
pub(crate) fn ink(crane: u16) -> &'static [u8] {
    colour_of(
        b"#1f3a93#b3261e#1b7837#762a83#8c510a#01665e#c51b7d#333333",
        crane,
    )
}

/// The pale tint of a crane's band.
pub(crate) fn tint(crane: u16) -> &'static [u8] {
    colour_of(
        b"#c6d2f2#f4c7c9#c9e8cf#e3cfe8#ecd9bd#c3e6e2#f6cfe4#d9d9d9",
        crane,
    )
}
