//! The segments of a text.

ghost use Rattle.std.specs.Prelude.{◌≡◌, [], ◌∷◌, MatchOption};
ghost use Rattle.std.specs.Iterator.{YieldsFirst, item_count};
ghost use Rattle.qc_edifact.specs.Segments.{left_over, segments_in, told_in};

use crate::segment::Segment;
use crate::signs::{Signs, USUAL};
use crate::text::skip_blanks;
use std::marker::Model;

/// The most bytes of a segment, its end sign not counted.
pub const MOST_BYTES: usize = 4096;

/// What is wrong with the next segment.
#[derive(Clone, Copy, Debug, PartialEq, Eq)]
pub enum SegmentFault {
    /// It has more than 4,096 bytes.
    TooLong,
    /// It has no end sign.
    Cut,
}

/// The six bytes behind `UNA` can't serve as signs, or there are fewer.
#[derive(Clone, Copy, Debug, PartialEq, Eq)]
pub struct NoSigns;

/// The segments of a text that are still to come. A fault is the last that comes.
#[derive(Drop)]
pub struct Segments<'a> {
    signs: Signs,
    text: &'a [u8],
}

impl<'a> Model for Segments<'a> {
    ghost use Rattle.std.specs.Prelude.{List, ℕ, Result};
    ghost use Rattle.qc_edifact.specs.declared.segments.SegmentFault.{SegmentFault};

    ghost Value = { List (Result (List (List (List ℕ))) SegmentFault) };

    ghost use Rattle.qc_edifact.specs.Segments.{segments_of};

    ghost view = { λ s. segments_of s.signs s.text.now };
}

impl<'a> Segments<'a> {
    /// The segments of a text, by the signs that `UNA` tells at its beginning, or else by the usual
    /// ones. NoSigns comes where `UNA` has no six bytes behind it, or they can't serve.
    pub fn open(text: &'a [u8]) -> Result<Segments<'a>, NoSigns>
        ensures { result ≡ segments_in text.now }
    {
        let text = skip_blanks(text);
        match text.strip_prefix(b"UNA".as_slice()) {
            Some(told) => Segments::told(told),
            None => Ok(Segments { signs: USUAL, text }),
        }
    }

    /// The segments behind the six bytes that tell the signs.
    fn told(text: &'a [u8]) -> Result<Segments<'a>, NoSigns>
        ensures { result ≡ told_in text.now }
    {
        if text.len() < 6 {
            return Err(NoSigns);
        }
        let (told, text) = text.split_at(6);
        match Signs::told(told) {
            Some(signs) => Ok(Segments { signs, text }),
            None => Err(NoSigns),
        }
    }
}

impl<'a> Iterator for Segments<'a> {
    type Item = Result<Segment<'a>, SegmentFault>;

    ghost next_gives = { YieldsFirst (λ segments. segments) };

    ghost remaining = { item_count (λ segments. segments) };

    fn next(&mut self) -> Option<Result<Segment<'a>, SegmentFault>> {
        let Some((piece, rest)) = self.signs.split(self.signs.end, self.text) else {
            let last = skip_blanks(self.text);
            self.text = &[];
            return left_over(last);
        };
        let bytes = skip_blanks(piece);
        if bytes.len() > MOST_BYTES {
            self.text = &[];
            return Some(Err(SegmentFault::TooLong));
        }
        self.text = rest;
        Some(Ok(Segment::of(self.signs, bytes)))
    }
}

/// What comes of the bytes behind the last end sign.
fn left_over<'a>(bytes: &[u8]) -> Option<Result<Segment<'a>, SegmentFault>>
    ensures { MatchOption result (left_over bytes.now ≡ []) (λ entry. left_over bytes.now ≡ entry ∷ []) }
{
    if bytes.is_empty() {
        None
    } else if bytes.len() > MOST_BYTES {
        Some(Err(SegmentFault::TooLong))
    } else {
        Some(Err(SegmentFault::Cut))
    }
}
