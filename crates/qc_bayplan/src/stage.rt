//! Tags of segments, and where in a file they may come.

ghost use Rattle.std.specs.Prelude.{◌≡◌};
ghost use Rattle.std.specs.Char.{is_ascii_uppercase};
ghost use Rattle.std.specs.List.{list_all};
ghost use Rattle.qc_num.specs.Reading.{IsReading};
ghost use Rattle.qc_bayplan.specs.Courses.{is_barred, is_equipment, is_inner, is_interchange, is_interchange_end, is_message, is_over, is_tag, may_come, tag_in, tag_named, tag_of};

use crate::fault::{BayPlanKind, KindError};
use crate::text::text_of;
use qc_edifact::Segment;
use std::alloc::Global;

/// What the tag of a segment tells.
#[derive(Clone, Copy)]
pub(crate) enum Tag {
    /// UNB, the head of an interchange.
    Interchange,
    /// UNH, the head of a message.
    Message,
    /// BGM, which kind of plan it is.
    Kind,
    /// LOC, a place or a port.
    Location,
    /// EQD, a container or other equipment.
    Equipment,
    /// UNT, the end of a message.
    MessageEnd,
    /// UNZ, the end of an interchange.
    InterchangeEnd,
    /// UNA, UNG and UNE, which may come nowhere.
    Barred,
    /// Any other.
    Other,
}

/// Whether each byte is a capital letter.
fn are_letters(text: &[u8]) -> bool
    ensures { result ≡ list_all is_ascii_uppercase text.now }
{
    text.iter().all(|b| b.is_ascii_uppercase())
}

/// Whether the text is three capital letters.
fn is_tag(text: &[u8]) -> bool
    ensures { result ≡ is_tag text.now }
{
    text.len() == 3 && are_letters(text)
}

/// Whether the segment may come nowhere.
fn is_barred(text: &[u8]) -> bool
    ensures { result ≡ is_barred text.now }
{
    text == b"UNA".as_slice() || text == b"UNG".as_slice() || text == b"UNE".as_slice()
}

impl Tag {
    /// What a tag tells.
    fn named(text: &[u8]) -> Tag
        ensures { result ≡ tag_named text.now }
    {
        if text == b"UNB".as_slice() {
            Tag::Interchange
        } else if text == b"UNH".as_slice() {
            Tag::Message
        } else if text == b"BGM".as_slice() {
            Tag::Kind
        } else if text == b"LOC".as_slice() {
            Tag::Location
        } else if text == b"EQD".as_slice() {
            Tag::Equipment
        } else if text == b"UNT".as_slice() {
            Tag::MessageEnd
        } else if text == b"UNZ".as_slice() {
            Tag::InterchangeEnd
        } else if is_barred(text) {
            Tag::Barred
        } else {
            Tag::Other
        }
    }

    /// What a tag tells, if the text is one.
    fn read(text: &[u8]) -> Result<Tag, BayPlanKind>
        ensures { result ≡ tag_of text.now }
    {
        if !is_tag(text) {
            return Err(BayPlanKind::Tag);
        }
        Ok(Tag::named(text))
    }

    /// What the tag of a segment tells.
    pub(crate) fn of(alloc: Global, segment: &Segment<'_>) -> Result<Tag, KindError>
        ensures { IsReading (λ tag. tag) (tag_in segment.now) result }
    {
        let text = text_of(alloc, segment, 0, 0)?;
        Ok(Tag::read(text.as_slice())?)
    }

    fn is_interchange(self) -> bool
        ensures { result ≡ is_interchange self }
    {
        match self {
            Tag::Interchange => true,
            _ => false,
        }
    }

    fn is_message(self) -> bool
        ensures { result ≡ is_message self }
    {
        match self {
            Tag::Message => true,
            _ => false,
        }
    }

    fn is_interchange_end(self) -> bool
        ensures { result ≡ is_interchange_end self }
    {
        match self {
            Tag::InterchangeEnd => true,
            _ => false,
        }
    }

    /// Whether the segment tells equipment.
    pub(crate) fn is_equipment(self) -> bool
        ensures { result ≡ is_equipment self }
    {
        match self {
            Tag::Equipment => true,
            _ => false,
        }
    }

    /// Whether the segment may stand within a message.
    fn is_inner(self) -> bool
        ensures { result ≡ is_inner self }
    {
        match self {
            Tag::Interchange => false,
            Tag::Message => false,
            Tag::InterchangeEnd => false,
            Tag::Barred => false,
            _ => true,
        }
    }
}

/// Where a file stands between two segments.
#[derive(Clone, Copy)]
pub(crate) enum Stage {
    /// At its beginning.
    Begun,
    /// Behind a UNB.
    Opened,
    /// Within the message.
    Inside,
    /// Behind a UNT, with a UNZ to come.
    Closed,
    /// The plan is over.
    Over,
}

impl Stage {
    /// Whether the segment of a tag may come.
    pub(crate) fn admits(self, tag: Tag) -> bool
        ensures { result ≡ may_come self tag }
    {
        match self {
            Stage::Begun => tag.is_interchange() || tag.is_message(),
            Stage::Opened => tag.is_message(),
            Stage::Inside => tag.is_inner(),
            Stage::Closed => tag.is_interchange_end(),
            Stage::Over => false,
        }
    }

    /// Whether nothing may come any more.
    pub(crate) fn is_over(self) -> bool
        ensures { result ≡ is_over self }
    {
        match self {
            Stage::Over => true,
            _ => false,
        }
    }
}
