//! Faults of a stowage list.

use qc_page::{Page, Place, Sort, Table, are_digits, is_blank, say_fields, say_header, table_of};
use qc_ship::{Cell, CellFault, Ship};
use qc_stow::{Columns, StowFault, StowKind};

const HEADER: &str = "id,move,cell,length";

/// A stowage list, with the columns that its header names.
#[derive(Drop)]
struct List<'a> {
    table: Table<'a>,
    at: Columns,
}

impl<'a> List<'a> {
    /// Where a record stands.
    fn place(&self, number: u32) -> Place<'a> {
        self.table.place(number)
    }

    /// The id of a record.
    fn id(&self, number: u32) -> &[u8] {
        self.table.field(number, self.at.id)
    }

    /// The kind of move of a record.
    fn kind(&self, number: u32) -> &[u8] {
        self.table.field(number, self.at.kind)
    }

    /// The cell of a record.
    fn cell(&self, number: u32) -> &[u8] {
        self.table.field(number, self.at.cell)
    }
}

/// Says what is wrong with a stowage list of a ship, whose first fault is this one.
pub fn say_stow(page: &mut Page, file: &str, bytes: &[u8], ship: &Ship, fault: StowFault) {
    let table = table_of(page.alloc(), file, bytes, fault.number);
    let Some(table) = page.unless_short(table) else {
        return;
    };
    match columns_of(&table) {
        Some(at) => say_fault(page, &List { table, at }, fault, ship),
        None => say_header(page, &table, HEADER, Sort::Stow),
    }
}

/// The columns that the header of a list names.
fn columns_of(table: &Table<'_>) -> Option<Columns> {
    Columns::read(table.record(1)?).ok()
}

/// Says what is wrong with a record behind the header.
fn say_fault(page: &mut Page, list: &List<'_>, fault: StowFault, ship: &Ship) {
    let number = fault.number;
    match fault.kind {
        StowKind::Header => {}
        StowKind::TooMany => page
            .on(list.place(number))
            .text("this is a move behind the 50000th, and a list has no more")
            .end(),
        StowKind::Fields => say_fields(page, &list.table, number, HEADER),
        StowKind::Id => say_id(page, list, number),
        StowKind::MoveKind => say_move(page, list, number),
        StowKind::Cell(fault) => say_cell(page, list, number, fault),
        StowKind::LengthMismatch => say_length(page, list, number),
        StowKind::NoHatch => say_no_hatch(page, list, number, ship),
        StowKind::IdTwice => say_id_twice(page, list, number),
        StowKind::CellTaken => say_cell_taken(page, list, number),
    }
}

/// Why a text is no id.
pub fn why_no_id(field: &[u8]) -> &'static str {
    if field.is_empty() {
        "it is missing"
    } else if field.len() > 20 {
        "it is too long"
    } else if field.contains(&b' ') {
        "it has a space"
    } else if field.contains(&b',') || field.contains(&b'"') {
        "it has a comma or a double quote"
    } else {
        "it has a letter or a sign that isn't ASCII, or one that can't be seen"
    }
}

/// Says what is wrong with an id.
fn say_id(page: &mut Page, list: &List<'_>, number: u32) {
    let (place, field) = (list.place(number), list.id(number));
    if is_blank(&list.table, number) {
        return page
            .on(place)
            .text("the record is empty: delete the line")
            .end();
    }
    page.on(place)
        .text("the id is ")
        .shown(field)
        .text(": ")
        .text(why_no_id(field))
        .text(
            "; an id is 1 to 20 letters, digits and signs of ASCII without spaces, commas and double quotes",
        )
        .end()
}

/// The move that is meant, where a word or a small letter says it.
fn meant_move(field: &[u8]) -> Option<&'static str> {
    match field.trim_ascii().first() {
        Some(b'd') | Some(b'D') => Some("D"),
        Some(b'l') | Some(b'L') => Some("L"),
        _ => None,
    }
}

/// Says what is wrong with a kind of move.
fn say_move(page: &mut Page, list: &List<'_>, number: u32) {
    let field = list.kind(number);
    page.on(list.place(number))
        .text("the move is ")
        .shown(field);
    match meant_move(field) {
        Some(meant) => page.text("; write ").text(meant).end(),
        None => page.text("; it is D for discharge or L for load").end(),
    }
}

/// Why a text has no cell's length, and what to do.
fn why_no_cell(field: &[u8]) -> &'static str {
    if field.is_empty() {
        return "it is missing";
    }
    if !field.trim_ascii().eq(field) {
        return "there are spaces around it";
    }
    if field.len() == 5 && are_digits(field) {
        return "its leading 0 is lost, as a spreadsheet does that reads cells as numbers: import the column as text";
    }
    if field.contains(&b'E') || field.contains(&b'e') || field.contains(&b'.') {
        return "a spreadsheet took it for a number: import the column as text";
    }
    if field.contains(&b'-') || field.contains(&b'/') || field.contains(&b' ') {
        return "bay, row and tier stand without signs between them";
    }
    "it has another length"
}

/// What is wrong with the text of a cell.
pub fn why_wrong_cell(field: &[u8], fault: CellFault) -> &'static str {
    match fault {
        CellFault::Length => why_no_cell(field),
        CellFault::Digit => match why_no_cell(field) {
            "it has another length" => "it has a letter or a sign, and is digits alone",
            why => why,
        },
        CellFault::BayZero => "its bay is 0, and bays count from 1",
        CellFault::TierOdd => "its tier, the last two digits, is odd, and tiers are even",
        CellFault::TierZero => "its tier, the last two digits, is 00, and tiers begin at 02",
    }
}

/// Says what is wrong with a cell.
fn say_cell(page: &mut Page, list: &List<'_>, number: u32, fault: CellFault) {
    let field = list.cell(number);
    page.on(list.place(number))
        .text("the cell is ")
        .shown(field)
        .text(": ")
        .text(why_wrong_cell(field, fault))
        .text("; a cell is bay, row and tier in six or seven digits, as 010482")
        .end()
}

/// Which length a bay says.
fn due_length(cell: Cell) -> &'static str {
    if cell.is_forty() {
        " is even: write 40"
    } else {
        " is odd: write 20"
    }
}

/// Says what is wrong with a length.
fn say_length(page: &mut Page, list: &List<'_>, number: u32) {
    let Ok(cell) = Cell::read(list.cell(number)) else {
        return;
    };
    page.on(list.place(number))
        .text("the length is ")
        .shown(list.table.field(number, list.at.length))
        .text(", and bay ")
        .count(u64::from(cell.bay))
        .text(due_length(cell))
        .text(
            ", or the bay where the container stands; odd bays are of 20 feet and even ones of 40, and 45 feet are written 40",
        )
        .end()
}

/// Says which hatches are nearest to a bay that none takes.
fn say_no_hatch(page: &mut Page, list: &List<'_>, number: u32, ship: &Ship) {
    let Ok(cell) = Cell::read(list.cell(number)) else {
        return;
    };
    page.on(list.place(number))
        .text("no hatch of the ship file takes bay ")
        .count(u64::from(cell.bay))
        .text("; an even hatch takes its own bay and those on both sides, an odd one its own alone")
        .end();
    say_nearest(page, ship, cell.bay)
}

/// Says which hatches are nearest to a bay.
fn say_nearest(page: &mut Page, ship: &Ship, bay: u16) {
    let (mut below, mut above) = (None, None);
    for hatch in ship.hatches() {
        if *hatch < bay {
            below = Some(*hatch);
        } else if above.is_none() {
            above = Some(*hatch);
        }
    }
    match (below, above) {
        (Some(below), Some(above)) => page
            .line()
            .text("the nearest hatches are ")
            .count(u64::from(below))
            .text(" and ")
            .count(u64::from(above))
            .end(),
        (Some(only), None) => page
            .line()
            .text("the last hatch is ")
            .count(u64::from(only))
            .end(),
        (None, Some(only)) => page
            .line()
            .text("the first hatch is ")
            .count(u64::from(only))
            .end(),
        (None, None) => {}
    }
}

/// Whether two cells overlap, both of which can be read.
fn overlap(one: &[u8], other: &[u8]) -> bool {
    match (Cell::read(one), Cell::read(other)) {
        (Ok(one), Ok(other)) => one.overlaps(&other),
        _ => false,
    }
}

/// The first record whose move is of the same kind and has the id or, else, an overlapping cell.
fn earlier(list: &List<'_>, number: u32, by_cell: bool) -> Option<u32> {
    let sort = list.kind(number);
    let at = if by_cell { list.at.cell } else { list.at.id };
    let wanted = list.table.field(number, at);
    for other in 2..number {
        let field = list.table.field(other, at);
        let is_taken = if by_cell {
            overlap(field, wanted)
        } else {
            field == wanted
        };
        if is_taken && list.kind(other) == sort {
            return Some(other);
        }
    }
    None
}

/// What a move of the kind of a record is called.
fn sort_of(list: &List<'_>, number: u32) -> &'static str {
    match list.kind(number) {
        b"D" => "discharged",
        _ => "loaded",
    }
}

/// Says which earlier record has the id.
fn say_id_twice(page: &mut Page, list: &List<'_>, number: u32) {
    let Some(other) = earlier(list, number, false) else {
        return;
    };
    let sort = sort_of(list, number);
    page.on(list.place(number))
        .shown(list.id(number))
        .text(" is ")
        .text(sort)
        .text(" in line ")
        .count(list.place(other).line as u64)
        .text(" already; each container is ")
        .text(sort)
        .text(" once")
        .end()
}

/// Says which earlier record has a cell that overlaps.
fn say_cell_taken(page: &mut Page, list: &List<'_>, number: u32) {
    let Some(other) = earlier(list, number, true) else {
        return;
    };
    page.on(list.place(number))
        .shown(list.id(number))
        .text(" at ")
        .shown(list.cell(number))
        .text(" overlaps ")
        .shown(list.id(other))
        .text(" at ")
        .shown(list.cell(other))
        .text(" of line ")
        .count(list.place(other).line as u64)
        .text("; each place is ")
        .text(sort_of(list, number))
        .text(" once")
        .end()
}
