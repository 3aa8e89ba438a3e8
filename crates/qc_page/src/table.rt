//! Tables: where their records stand, and what is wrong with their headers and columns.

use crate::bytes::{count_pieces, has_piece};
use crate::form::{Sort, behind_mark, say_form};
use crate::page::Page;
use crate::place::{Place, line_at, line_of};
use csv::ByteRecord;
use qc_lines::first_records;
use qc_num::OutOfMemory;
use std::alloc::Global;

/// The records of a table, with the text in which they stand.
#[derive(Drop)]
pub struct Table<'a> {
    pub file: &'a str,
    text: &'a [u8],
    records: Vec<ByteRecord>,
}

/// The first records of a table, up to the one with a number.
pub fn table_of<'a>(
    alloc: Global,
    file: &'a str,
    bytes: &'a [u8],
    most: u32,
) -> Result<Table<'a>, OutOfMemory> {
    Ok(Table {
        file,
        text: behind_mark(bytes),
        records: first_records(alloc, bytes, most as usize)?,
    })
}

/// The bytes of a text ahead of a record that a reader began at an offset: the reader skips line ends ahead of it.
fn start_from(text: &[u8], offset: usize) -> usize {
    let mut start = offset;
    for byte in text.get(offset..).unwrap_or(&[]) {
        if *byte != b'\n' && *byte != b'\r' {
            break;
        }
        start = start.saturating_add(1);
    }
    start
}

impl<'a> Table<'a> {
    /// A record by its number, from 1.
    pub fn record(&self, number: u32) -> Option<&ByteRecord> {
        self.records.get((number as usize).checked_sub(1)?)
    }

    /// How many records were read.
    fn count(&self) -> u32 {
        u32::try_from(self.records.len()).unwrap_or(u32::MAX)
    }

    /// The number of the first record behind the header whose first field is this one.
    pub fn record_of(&self, name: &[u8]) -> Option<u32> {
        for number in 2..self.count().saturating_add(1) {
            if self.field(number, 0) == name {
                return Some(number);
            }
        }
        None
    }

    /// Where a record stands.
    pub fn place(&self, number: u32) -> Place<'a> {
        Place {
            file: self.file,
            line: self.line(number).unwrap_or(0),
            record: number,
        }
    }

    /// The line in which a record begins.
    fn line(&self, number: u32) -> Option<usize> {
        let at = self.record(number)?.position()?;
        let offset = usize::try_from(at.byte()).unwrap_or(0);
        Some(line_at(self.text, start_from(self.text, offset)))
    }

    /// A field of a record, from 0; empty where there is none.
    pub fn field(&self, number: u32, at: usize) -> &[u8] {
        match self.record(number) {
            Some(record) => record.get(at).unwrap_or(&[]),
            None => &[],
        }
    }

    /// The first line of the text that has more than spaces.
    fn first_line(&self) -> &'a [u8] {
        line_of(self.text, line_at(self.text, start_from(self.text, 0)))
    }
}

/// A line in small letters, with commas for semicolons and tabs, and without spaces and quotes.
fn plain_line(alloc: Global, line: &[u8]) -> Result<Vec<u8>, OutOfMemory> {
    let mut plain = Vec::new(alloc);
    for byte in line {
        if let Some(byte) = plain_byte(*byte) {
            plain.push(byte)?;
        }
    }
    Ok(plain)
}

/// What a byte is in such a line; none where it is left out.
fn plain_byte(byte: u8) -> Option<u8> {
    match byte {
        b';' | b'\t' => Some(b','),
        b' ' | b'"' => None,
        other => Some(other.to_ascii_lowercase()),
    }
}

/// Which signs stand between columns in place of commas.
fn other_signs(line: &[u8]) -> Option<&'static str> {
    if line.contains(&b';') {
        Some("semicolons stand between the columns: save the table with commas between them")
    } else if line.contains(&b'\t') {
        Some("tabs stand between the columns: save the table with commas between them")
    } else {
        None
    }
}

/// How many of the names in a header, which has commas between them, a line has too.
fn has_names(plain: &[u8], header: &str) -> usize {
    let mut count = 0usize;
    for name in header.split(',') {
        if has_piece(plain, b',', name.as_bytes()) {
            count = count.saturating_add(1);
        }
    }
    count
}

/// Why a line isn't the header.
fn why_no_header(
    alloc: Global,
    line: &[u8],
    header: &str,
    wanted: Sort,
) -> Result<&'static str, OutOfMemory> {
    let plain = plain_line(alloc, line)?;
    Ok(why_other_line(plain.as_slice(), line, header, wanted))
}

/// Why a line, which is also given plain, isn't the header.
fn why_other_line(plain: &[u8], line: &[u8], header: &str, wanted: Sort) -> &'static str {
    let named = has_names(plain, header);
    if plain.starts_with(b"sep=") {
        return "this line is the spreadsheet's own: delete it";
    }
    if named == 4
        && let Some(signs) = other_signs(line)
    {
        return signs;
    }
    match wanted {
        Sort::Stow if named == 4 => "each of the four names stands in one column alone",
        _ => why_other_names(plain, header, named),
    }
}

/// Why a line, of which this many names are those of the header, has other columns.
fn why_other_names(plain: &[u8], header: &str, named: usize) -> &'static str {
    if plain == header.as_bytes() {
        "it has small letters alone, and no spaces"
    } else if named == 4 && count_pieces(plain, b',') > 4 {
        "it has these four columns alone: delete the others"
    } else if named == 4 {
        "the columns stand in this order"
    } else if named > 0 {
        "a column is missing or has another name"
    } else {
        "the header is missing"
    }
}

/// Says what is wrong with the header of a table.
pub fn say_header(page: &mut Page, table: &Table<'_>, header: &str, wanted: Sort) {
    if say_form(page, table.file, table.text, wanted) {
        return;
    }
    let line = table.first_line();
    let Some(why) = page.unless_short(why_no_header(page.alloc(), line, header, wanted)) else {
        return;
    };
    page.on(table.place(1))
        .shown(line)
        .text(" isn't the header ")
        .text(header)
        .text(": ")
        .text(why)
        .end()
}

/// Whether each field behind those of the header is empty.
fn are_empty_behind(fields: &ByteRecord, columns: usize) -> bool {
    for field in fields.iter().skip(columns) {
        if !field.trim_ascii().is_empty() {
            return false;
        }
    }
    true
}

/// Why a record hasn't as many fields as the header.
fn why_not_as_many(fields: &ByteRecord, columns: usize) -> &'static str {
    if fields.len() > columns && are_empty_behind(fields, columns) {
        if columns == 4 {
            "those behind the fourth are empty: delete their columns"
        } else {
            "those behind the header's last are empty: delete their columns"
        }
    } else if fields.len() > columns {
        "delete further columns; a field that has a comma stands between double quotes"
    } else if let Some(signs) = other_signs(fields.as_slice()) {
        signs
    } else if fields.as_slice().trim_ascii().is_empty() {
        "the line has only spaces: delete it"
    } else {
        "some are missing, or the line is no record of the table"
    }
}

/// Whether the first record of a table is the header as it is mostly written.
fn is_usual(table: &Table<'_>, header: &str) -> bool {
    let mut count = 0usize;
    for name in header.split(',') {
        if table.field(1, count) != name.as_bytes() {
            return false;
        }
        count = count.saturating_add(1);
    }
    match table.record(1) {
        Some(fields) => fields.len() == count,
        None => false,
    }
}

/// Says what is wrong with the fields of a record that hasn't as many as the header.
pub fn say_fields(page: &mut Page, table: &Table<'_>, number: u32, header: &str) {
    let (Some(fields), Some(columns)) = (table.record(number), table.record(1)) else {
        return;
    };
    let (count, columns) = (fields.len(), columns.len());
    page.on(table.place(number))
        .text("the record has ")
        .count(count as u64)
        .text(if count == 1 { " field" } else { " fields" });
    if is_usual(table, header) {
        page.text(", and needs four, ").text(header);
    } else {
        page.text(", and the header has ").count(columns as u64);
    }
    page.text(": ").text(why_not_as_many(fields, columns)).end()
}

/// Whether a record has no more than empty fields.
pub fn is_blank(table: &Table<'_>, number: u32) -> bool {
    match table.record(number) {
        Some(fields) => fields.as_slice().trim_ascii().is_empty(),
        None => false,
    }
}
