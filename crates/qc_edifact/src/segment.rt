//! A segment, and the bytes of its components.

ghost use Rattle.std.specs.Prelude.{◌≡◌};
ghost use Rattle.std.specs.Iterator.{YieldsFirst, item_count};
ghost use Rattle.std.specs.Str.{bytes_eq};
ghost use Rattle.qc_edifact.specs.Cuts.{elements_of, part_of, unreleased};

use crate::signs::Signs;
use std::marker::Model;

/// The bytes of a component in order, without release signs.
#[derive(Drop)]
pub struct Part<'a> {
    signs: Signs,
    bytes: &'a [u8],
}

impl<'a> Model for Part<'a> {
    ghost use Rattle.std.specs.Prelude.{List, ℕ};

    ghost Value = { List ℕ };

    ghost use Rattle.std.specs.Prelude.{false};
    ghost use Rattle.qc_edifact.specs.Cuts.{unreleased};

    ghost view = { λ p. unreleased p.signs false p.bytes.now };
}

impl<'a> Iterator for Part<'a> {
    type Item = u8;

    ghost next_gives = { YieldsFirst (λ bytes. bytes) };

    ghost remaining = { item_count (λ bytes. bytes) };

    fn next(&mut self) -> Option<u8> {
        let (first, rest) = self.bytes.split_first()?;
        if !self.signs.is_release(*first) {
            self.bytes = rest;
            return Some(*first);
        }
        let (taken, rest) = rest.split_first()?;
        self.bytes = rest;
        Some(*taken)
    }
}

/// A segment: elements, each of which has components.
#[derive(Drop)]
pub struct Segment<'a> {
    signs: Signs,
    bytes: &'a [u8],
}

impl<'a> Model for Segment<'a> {
    ghost use Rattle.std.specs.Prelude.{List, ℕ};

    ghost Value = { List (List (List ℕ)) };

    ghost use Rattle.qc_edifact.specs.Cuts.{elements_of};

    ghost view = { λ s. elements_of s.signs s.bytes.now };
}

impl<'a> Segment<'a> {
    /// The segment of these bytes, which stand ahead of its end sign.
    pub(crate) fn of(signs: Signs, bytes: &'a [u8]) -> Segment<'a>
        ensures { result ≡ elements_of signs bytes.now }
    {
        Segment { signs, bytes }
    }

    /// A component of an element, both counted from 0; empty where there is none.
    pub fn part(&self, element: u16, component: u16) -> Part<'a>
        ensures { result ≡ part_of self.now element component }
    {
        let element = self.signs.piece(self.signs.element, self.bytes, element);
        Part {
            signs: self.signs,
            bytes: self.signs.piece(self.signs.component, element, component),
        }
    }

    /// Whether a component of an element is this text.
    pub fn has(&self, element: u16, component: u16, text: &[u8]) -> bool
        ensures { result ≡ bytes_eq (part_of self.now element component) text.now }
    {
        let mut rest = text;
        for byte in self.part(element, component) {
            let Some((first, others)) = rest.split_first() else {
                return false;
            };
            if *first != byte {
                return false;
            }
            rest = others;
        }
        rest.is_empty()
    }
}
