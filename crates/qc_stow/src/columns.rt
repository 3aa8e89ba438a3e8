//! The columns of a list, as its header names them.

ghost use Rattle.std.specs.Prelude.{◌≡◌, ◌==◌};
ghost use Rattle.std.specs.List.{list_all};
ghost use Rattle.std.specs.Str.{str_eq_ignore_ascii_case};
ghost use Rattle.csv.specs.Records.{fields_of};
ghost use Rattle.qc_stow.specs.Columns.{begins_named, column_of, columns_in, is_named, without_blanks};

use crate::fault::StowKind;
use csv::ByteRecord;
use qc_lines::field;

/// Where the four values of a move stand in each record: the places of their columns, from 0.
#[derive(Clone, Copy)]
pub struct Columns {
    pub id: usize,
    pub kind: usize,
    pub cell: usize,
    pub length: usize,
    /// How many fields each record has.
    pub all: usize,
}

/// The text without the blanks ahead of it.
fn without_blanks(field: &[u8]) -> &[u8]
    ensures { result.now ≡ without_blanks field.now }
{
    let mut text = field;
    while let Some((b' ', rest)) = text.split_first() {
        text = rest;
    }
    text
}

/// Whether two texts differ at most in small and capital letters.
fn is_alike(text: &[u8], name: &[u8]) -> bool
    ensures { result ≡ str_eq_ignore_ascii_case text.now name.now }
{
    text.eq_ignore_ascii_case(name)
}

/// Whether the text is blanks alone.
fn are_blanks(text: &[u8]) -> bool
    ensures { result ≡ list_all (λ b. b == 0x20) text.now }
{
    text.iter().all(|b| *b == b' ')
}

/// Whether the text is this name, in small or in capital letters, and then blanks.
fn begins_named(name: &[u8], text: &[u8]) -> bool
    ensures { result ≡ begins_named name.now text.now }
{
    name.len() <= text.len()
        && is_alike(&text[..name.len()], name)
        && are_blanks(&text[name.len()..])
}

/// Whether the field is this name, with blanks or none at both ends.
fn is_named(name: &[u8], field: &[u8]) -> bool
    ensures { result ≡ is_named name.now field.now }
{
    begins_named(name, without_blanks(field))
}

/// The column of a name, which exactly one field of the header is.
fn column_of(header: &ByteRecord, name: &[u8]) -> Result<usize, StowKind>
    ensures { result ≡ column_of (fields_of header.now) name.now }
{
    let mut found = None;
    for at in 0..header.len() {
        if is_named(name, field(header, at)) {
            if found.is_some() {
                return Err(StowKind::Header);
            }
            found = Some(at);
        }
    }
    found.ok_or(StowKind::Header)
}

impl Columns {
    /// The columns that a header names; the fault `Header` where one of the four isn't named, or twice.
    pub fn read(header: &ByteRecord) -> Result<Columns, StowKind>
        ensures { result ≡ columns_in (fields_of header.now) }
    {
        Ok(Columns {
            id: column_of(header, b"id")?,
            kind: column_of(header, b"move")?,
            cell: column_of(header, b"cell")?,
            length: column_of(header, b"length")?,
            all: header.len(),
        })
    }
}
