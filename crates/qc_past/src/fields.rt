//! The fields of a record.

ghost use Rattle.std.specs.Prelude.{◌≡◌, ◌<◌, ◌≤◌, IfOk};
ghost use Rattle.csv.specs.Records.{fields_of};
ghost use Rattle.qc_past.specs.Fields.{is_header, length_in, phase_in};

use crate::fault::PastKind;
use csv::ByteRecord;
use qc_lines::field;
use qc_model::Phase;
use qc_num::plain_number;

// How many digits a length has at most.
const DIGITS: usize = 9;

/// Whether the record is the header.
pub(crate) fn is_header(fields: &ByteRecord) -> bool
    ensures { result ≡ is_header (fields_of fields.now) }
{
    fields.len() == 4
        && field(fields, 0) == b"call".as_slice()
        && field(fields, 1) == b"phase".as_slice()
        && field(fields, 2) == b"planned".as_slice()
        && field(fields, 3) == b"real".as_slice()
}

/// The phase that a field names; `None` is any.
pub(crate) fn read_phase(field: &[u8]) -> Result<Option<Phase>, PastKind>
    ensures { result ≡ phase_in field.now }
{
    if field == b"-".as_slice() {
        Ok(None)
    } else if field == b"DD".as_slice() {
        Ok(Some(Phase::DeckOut))
    } else if field == b"DH".as_slice() {
        Ok(Some(Phase::HoldOut))
    } else if field == b"LH".as_slice() {
        Ok(Some(Phase::HoldIn))
    } else if field == b"LD".as_slice() {
        Ok(Some(Phase::DeckIn))
    } else {
        Err(PastKind::Phase)
    }
}

/// The length that a field writes: plain decimal of at most 9 digits, and not 0.
pub(crate) fn read_length(field: &[u8]) -> Result<u32, PastKind>
    ensures length { result ≡ length_in field.now }
    ensures range { IfOk result (λ length. (1 ≤ length) × (length < 1000000000)) }
{
    match plain_number(field, DIGITS) {
        None => Err(PastKind::Number),
        Some(number) => {
            if number == 0 {
                Err(PastKind::Number)
            } else {
                Ok(number as u32)
            }
        }
    }
}
