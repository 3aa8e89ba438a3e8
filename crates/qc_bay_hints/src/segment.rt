//! Segments of a bay plan's file, found again to be shown.

use qc_edifact::{Segment, Segments, plain};
use qc_num::{Bytes, OutOfMemory};
use qc_page::{Page, Place};
use std::alloc::Global;

/// The service signs by which segments end.
#[derive(Clone, Copy)]
struct Ends {
    end: u8,
    release: u8,
}

/// A bay plan's file, with its text without line breaks.
#[derive(Drop)]
pub(crate) struct Message<'a> {
    file: &'a str,
    bytes: &'a [u8],
    text: Bytes,
}

/// The text from its first byte above 20 (hexadecimal) on, and how many stand ahead of it.
fn skipped(text: &[u8]) -> (usize, &[u8]) {
    let mut count = 0usize;
    for byte in text {
        if *byte > 0x20 {
            break;
        }
        count = count.saturating_add(1);
    }
    (count, text.get(count..).unwrap_or(&[]))
}

/// The service signs of a text, and where its first segment may begin.
fn ends_of(text: &[u8]) -> (Ends, usize) {
    let (count, rest) = skipped(text);
    match (rest.starts_with(b"UNA"), rest.get(6), rest.get(8)) {
        (true, Some(release), Some(end)) => (
            Ends {
                end: *end,
                release: *release,
            },
            count.saturating_add(9),
        ),
        _ => (
            Ends {
                end: b'\'',
                release: b'?',
            },
            count,
        ),
    }
}

/// How long the segment is that a text begins with, its end sign not counted.
fn length_of(text: &[u8], ends: Ends) -> usize {
    let mut taken = false;
    let mut count = 0usize;
    for byte in text {
        if !taken && *byte == ends.end {
            break;
        }
        taken = !taken && *byte == ends.release && ends.release != b' ';
        count = count.saturating_add(1);
    }
    count
}

/// The line of a file in which the byte stands that comes behind so many others that end no line.
fn line_behind(bytes: &[u8], count: usize) -> usize {
    let mut line = 1usize;
    let mut left = count;
    for byte in bytes
        .strip_prefix([0xEF, 0xBB, 0xBF].as_slice())
        .unwrap_or(bytes)
    {
        if *byte == b'\n' {
            line = line.saturating_add(1);
        } else if *byte != b'\r' {
            if left == 0 {
                break;
            }
            left = left.saturating_sub(1);
        }
    }
    line
}

impl<'a> Message<'a> {
    /// The message in a file.
    pub(crate) fn of(
        alloc: Global,
        file: &'a str,
        bytes: &'a [u8],
    ) -> Result<Message<'a>, OutOfMemory> {
        let text = plain(alloc, bytes)?;
        Ok(Message { file, bytes, text })
    }

    /// The six bytes that tell the service signs, or what is there of them.
    pub(crate) fn signs(&self) -> &[u8] {
        let (_, rest) = skipped(self.text.as_slice());
        let told = rest.get(3..).unwrap_or(&[]);
        told.get(..6).unwrap_or(told)
    }

    /// Where the segment of a number stands in the text, and its bytes; empty where there is none.
    fn spot(&self, number: u32) -> (usize, &[u8]) {
        let text = self.text.as_slice();
        let (ends, mut at) = ends_of(text);
        for count in 1..number.saturating_add(1) {
            let (blanks, rest) = skipped(text.get(at..).unwrap_or(&[]));
            let long = length_of(rest, ends);
            at = at.saturating_add(blanks);
            if count == number {
                return (at, rest.get(..long).unwrap_or(rest));
            }
            at = at.saturating_add(long).saturating_add(1);
        }
        (at, &[])
    }

    /// Begins a line on the segment of a number, which is shown.
    pub(crate) fn on<'p>(&self, page: &'p mut Page, number: u32) -> &'p mut Page {
        let (at, bytes) = self.spot(number);
        let place = Place::at_line(self.file, line_behind(self.bytes, at));
        page.on(place)
            .text("segment ")
            .count(u64::from(number))
            .text(" is ")
            .shown(bytes)
            .text(": ")
    }

    /// Begins a line on the file.
    pub(crate) fn whole<'p>(&self, page: &'p mut Page) -> &'p mut Page {
        page.on(Place::whole(self.file))
    }

    /// Begins a note on the file.
    pub(crate) fn note<'p>(&self, page: &'p mut Page) -> &'p mut Page {
        page.note(Place::whole(self.file))
    }

    /// The segments of the file; none where its service signs can't serve.
    pub(crate) fn segments(&self) -> Option<Segments<'_>> {
        Segments::open(self.text.as_slice()).ok()
    }

    /// The segment of a number, if it can be read.
    pub(crate) fn segment(&self, number: u32) -> Option<Segment<'_>> {
        let mut count = 0u32;
        for entry in self.segments()? {
            count = count.saturating_add(1);
            if count == number {
                return entry.ok();
            }
        }
        None
    }

    /// Whether nothing stands where the segment of a number would begin.
    pub(crate) fn is_empty_at(&self, number: u32) -> bool {
        self.spot(number).1.is_empty()
    }
}

/// The bytes of a component of a segment.
fn component(
    alloc: Global,
    segment: &Segment<'_>,
    element: u16,
    component: u16,
) -> Result<Bytes, OutOfMemory> {
    Ok(Bytes::of(segment.part(element, component).collect(alloc)?))
}

/// The bytes of a component of a segment, where there was memory for them.
pub(crate) fn part_of(
    page: &mut Page,
    segment: &Segment<'_>,
    element: u16,
    at: u16,
) -> Option<Bytes> {
    let part = component(page.alloc(), segment, element, at);
    page.unless_short(part)
}

/// The bytes that are no blanks.
fn without_blanks(alloc: Global, text: &[u8]) -> Result<Bytes, OutOfMemory> {
    let kept = text.iter().copied().filter(|b| *b != b' ').collect(alloc)?;
    Ok(Bytes::of(kept))
}

/// The id that a segment tells, without blanks, where there was memory for it.
pub(crate) fn id_of(page: &mut Page, segment: &Segment<'_>) -> Option<Bytes> {
    let part = part_of(page, segment, 2, 0)?;
    let id = without_blanks(page.alloc(), part.as_slice());
    page.unless_short(id)
}
