//! The records of a file of comma-separated values.

ghost use Rattle.std.specs.Prelude.{◌≡◌, IfOk, map, take, true};
ghost use Rattle.csv.specs.Reading.{error_kind, stops_reader};
ghost use Rattle.csv.specs.Records.{fields_of};
ghost use Rattle.qc_lines.specs.Records.{field_of, records_of};

use csv::{ByteRecord, Error, ErrorKind, ReaderBuilder};
use qc_num::OutOfMemory;
use std::alloc::Global;

/// A read of bytes in memory, of records that may differ in length, fails only for memory.
fn stopped(error: Error) -> OutOfMemory
    requires { stops_reader (error_kind error) ≡ true }
{
    match error.into_kind() {
        ErrorKind::OutOfMemory | ErrorKind::Io(_) => OutOfMemory,
        _ => unreachable!(),
    }
}

/// The first `limit` records of a file, or all of them if it has fewer. Records may differ in
/// their number of fields. Bytes that are no text are read as they stand.
pub fn first_records(
    alloc: Global,
    text: &[u8],
    limit: usize,
) -> Result<Vec<ByteRecord>, OutOfMemory>
    ensures { IfOk result (λ v. map fields_of v.items ≡ take limit (records_of text.now)) }
{
    let reader = ReaderBuilder::new()
        .has_headers(false)
        .flexible(true)
        .from_reader(alloc, text);
    let mut records = Vec::new(alloc);
    let mut items = reader.into_byte_records();
    while records.len() < limit {
        let record = match items.next() {
            Some(Ok(record)) => record,
            Some(Err(error)) => {
                drop(items);
                return Err(stopped(error));
            }
            None => break,
        };
        if records.push(record).is_err() {
            drop(items);
            return Err(OutOfMemory);
        }
    }
    drop(items);
    Ok(records)
}

/// The field of a record at a place, empty past the last one.
pub fn field(fields: &ByteRecord, at: usize) -> &[u8]
    ensures { result.now ≡ field_of (fields_of fields.now) at }
{
    match fields.get(at) {
        Some(field) => field,
        None => &[],
    }
}
