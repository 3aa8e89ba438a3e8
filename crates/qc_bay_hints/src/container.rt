//! Faults of containers, and of the places where they stand.

use crate::segment::{Message, id_of, part_of};
use qc_bayplan::Which;
use qc_edifact::Segment;
use qc_hints::{why_no_id, why_wrong_cell};
use qc_num::Bytes;
use qc_page::Page;
use qc_ship::{Cell, CellFault};

/// Whether a segment opens a place.
fn opens_place(segment: &Segment<'_>) -> bool {
    segment.has(0, 0, b"LOC") && segment.has(1, 0, b"147")
}

/// Whether a segment tells a container.
fn tells_container(segment: &Segment<'_>) -> bool {
    segment.has(0, 0, b"EQD") && segment.has(1, 0, b"CN")
}

/// The number of the last segment ahead of this one that opens a place; 0 where there is none.
fn place_before(message: &Message<'_>, number: u32) -> u32 {
    let (mut count, mut last) = (0u32, 0u32);
    let Some(segments) = message.segments() else {
        return 0;
    };
    for entry in segments {
        count = count.saturating_add(1);
        if count >= number {
            break;
        }
        if let Ok(segment) = entry
            && opens_place(&segment)
        {
            last = count;
        }
    }
    last
}

/// The text of a cell, as it is written.
fn cell_text(page: &mut Page, segment: &Segment<'_>) -> Option<Bytes> {
    part_of(page, segment, 2, 0)
}

/// A component of the segment of this number.
fn text_at(
    page: &mut Page,
    message: &Message<'_>,
    number: u32,
    element: u16,
    component: u16,
) -> Option<Bytes> {
    let segment = message.segment(number)?;
    part_of(page, &segment, element, component)
}

/// The cell of the place that is open at a segment, as it is written, with the number of the segment that tells it.
fn cell_at(page: &mut Page, message: &Message<'_>, number: u32) -> Option<(u32, Bytes)> {
    let at = place_before(message, number);
    let text = text_at(page, message, at, 2, 0)?;
    Some((at, text))
}

/// Begins a line on a container, with its place.
fn on_container<'p>(
    page: &'p mut Page,
    message: &Message<'_>,
    number: u32,
    at: u32,
    cell: &[u8],
) -> &'p mut Page {
    message
        .on(page, number)
        .text("at the place ")
        .shown(cell)
        .text(" of segment ")
        .count(u64::from(at))
        .text(", ")
}

/// Says that a place isn't one of ISO numbers.
pub(crate) fn say_cell_kind(page: &mut Page, message: &Message<'_>, number: u32) {
    let Some((at, cell)) = cell_at(page, message, number) else {
        return;
    };
    let Some(agency) = text_at(page, message, at, 2, 2) else {
        return;
    };
    on_container(page, message, number, at, cell.as_slice())
        .text("whose agency is ")
        .shown(agency.as_slice())
        .text(
            ": it is numbered in a carrier's own way and can't be listed; places by ISO numbers have agency 5",
        )
        .end()
}

/// Says what is wrong with the cell of a container.
pub(crate) fn say_cell(page: &mut Page, message: &Message<'_>, number: u32, fault: CellFault) {
    let Some((at, cell)) = cell_at(page, message, number) else {
        return;
    };
    let text = cell.as_slice().trim_ascii();
    on_container(page, message, number, at, cell.as_slice())
        .text("which is no cell: ")
        .text(if text.is_empty() {
            "it is missing, so the container isn't planned yet"
        } else {
            why_wrong_cell(text, fault)
        })
        .text("; a cell is bay, row and tier in six or seven digits, as 0010482")
        .end()
}

/// Says what is wrong with an id.
pub(crate) fn say_id(page: &mut Page, message: &Message<'_>, which: Which, number: u32) {
    let Some((at, cell)) = cell_at(page, message, number) else {
        return;
    };
    let Some(segment) = message.segment(number) else {
        return;
    };
    let Some(id) = id_of(page, &segment) else {
        return;
    };
    on_container(page, message, number, at, cell.as_slice())
        .text("the id is ")
        .shown(id.as_slice())
        .text(": ")
        .text(why_no_id(id.as_slice()))
        .text(
            "; an id is 1 to 20 letters, digits and signs of ASCII without commas and double quotes, and ",
        )
        .text(match which {
            Which::Arrival => "on arrival each container has one",
            Which::Departure => "one that is left empty for a departure is made from the cell",
        })
        .end()
}

/// The size of the container that a segment tells, behind its place and the number of the segment that tells that, both
/// as they are written.
fn size_at(page: &mut Page, message: &Message<'_>, number: u32) -> Option<(u32, Bytes, Bytes)> {
    let (at, cell) = cell_at(page, message, number)?;
    let size = text_at(page, message, number, 3, 0)?;
    Some((at, cell, size))
}

/// Says that a size isn't known.
pub(crate) fn say_size(page: &mut Page, message: &Message<'_>, number: u32) {
    let Some((at, cell, size)) = size_at(page, message, number) else {
        return;
    };
    on_container(page, message, number, at, cell.as_slice())
        .text("the size is ")
        .shown(size.as_slice())
        .text(
            "; by its first character 2 is 20 feet, 4 is 40, 9 and L are 45, and G to P are more than 40; 10, 24 and 30 feet can't be listed",
        )
        .end()
}

/// Says that a size isn't that of the bay.
pub(crate) fn say_length(page: &mut Page, message: &Message<'_>, number: u32) {
    let Some((at, cell, size)) = size_at(page, message, number) else {
        return;
    };
    on_container(page, message, number, at, cell.as_slice())
        .text("the size is ")
        .shown(size.as_slice())
        .text(", and the bay is one of ")
        .text(match Cell::read(cell.as_slice().trim_ascii()) {
            Ok(cell) if cell.is_forty() => "40 feet, as even ones are",
            _ => "20 feet, as odd ones are",
        })
        .text(": one of the two is wrong, so ask the line which")
        .end()
}

/// A container, by its id without blanks and its place as it is written.
#[derive(Drop)]
struct Known {
    number: u32,
    id: Bytes,
    cell: Bytes,
}

impl Known {
    /// Whether the other has no id and its cell makes this one's.
    fn is_made_of(&self, other: &Known) -> bool {
        match self.id.as_slice().strip_prefix(b"NEW-".as_slice()) {
            Some(text) => other.id.as_slice().is_empty() && is_text_of(text, other.cell.as_slice()),
            None => false,
        }
    }

    /// Whether both have one id, be it one that is made of a cell.
    fn has_id_of(&self, other: &Known) -> bool {
        self.id.as_slice() == other.id.as_slice()
            || self.is_made_of(other)
            || other.is_made_of(self)
    }
}

/// Whether a text is that of a cell, which may be written with more zeros.
fn is_text_of(text: &[u8], cell: &[u8]) -> bool {
    match Cell::read(cell.trim_ascii()) {
        Ok(cell) => cell.write().as_bytes() == text,
        Err(_) => false,
    }
}

/// Whether two texts are overlapping cells.
fn overlap(one: &[u8], other: &[u8]) -> bool {
    match (Cell::read(one.trim_ascii()), Cell::read(other.trim_ascii())) {
        (Ok(one), Ok(other)) => one.overlaps(&other),
        _ => false,
    }
}

/// The container that a segment tells.
fn known_at(page: &mut Page, message: &Message<'_>, number: u32) -> Option<Known> {
    let (_, cell) = cell_at(page, message, number)?;
    let segment = message.segment(number)?;
    let id = id_of(page, &segment)?;
    Some(Known { number, id, cell })
}

/// Whether an earlier container is the one that a later one may not stand beside.
fn is_other(earlier: &Known, later: &Known, by_cell: bool) -> bool {
    if by_cell {
        overlap(earlier.cell.as_slice(), later.cell.as_slice())
    } else {
        earlier.has_id_of(later)
    }
}

/// The first container that has the id of a later one or, else, an overlapping cell.
fn earlier(page: &mut Page, message: &Message<'_>, later: &Known, by_cell: bool) -> Option<Known> {
    let (mut number, mut place) = (0u32, None);
    for entry in message.segments()? {
        number = number.saturating_add(1);
        let Ok(segment) = entry else {
            return None;
        };
        if number >= later.number {
            return None;
        }
        if opens_place(&segment) {
            place = cell_text(page, &segment);
        } else if tells_container(&segment)
            && let Some(cell) = place.take()
        {
            let id = id_of(page, &segment)?;
            let known = Known { number, id, cell };
            if is_other(&known, later, by_cell) {
                return Some(known);
            }
        }
    }
    None
}

/// Says which earlier container has the id or an overlapping cell.
pub(crate) fn say_twice(page: &mut Page, message: &Message<'_>, number: u32, by_cell: bool) {
    let Some(later) = known_at(page, message, number) else {
        return;
    };
    let Some(other) = earlier(page, message, &later, by_cell) else {
        return;
    };
    message
        .on(page, number)
        .shown(later.id.as_slice())
        .text(" at ")
        .shown(later.cell.as_slice())
        .text(if by_cell {
            " overlaps "
        } else {
            " has the id of "
        })
        .shown(other.id.as_slice())
        .text(" at ")
        .shown(other.cell.as_slice())
        .text(" of segment ")
        .count(u64::from(other.number))
        .text(if by_cell {
            "; each place holds one container, and further ones that are bundled with it stand behind the same LOC"
        } else {
            "; each container stands once in a plan, and for a departure an id that is left empty is made from the cell"
        })
        .end()
}
