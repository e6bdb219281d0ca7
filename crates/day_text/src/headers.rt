//! Headers: lines that name the fields of the rows after them.

ghost use Rattle.std.specs.Prelude.{◌≡◌, ◌↔◌, ◌≤◌, Some, IfOk, IsTrue};
ghost use Rattle.csv.specs.Records.{fields_of};
ghost use Rattle.day_text.specs.Records.{texts_of_line, header_fields, SaysAt, SaysRowNames};
ghost use Rattle.day_text.specs.Records.{SaysRowHeader, SaysBankRowHeader, SaysHeader};

use crate::records::{record_of, without_spaces};
use csv::ByteRecord;
use std::alloc::{AllocError, Global};

/// What the header of rows names, in this order, with commas between the names.
#[derive(Clone, Copy)]
pub enum Header {
    /// Rows of one building: `time`, `origin`, `destination` and `persons`.
    Rows,
    /// Rows of several banks of cars: `bank`, `time`, `origin`, `destination` and `persons`.
    BankRows,
}

/// Whether the field at this place says this, but for spaces at its ends.
fn says(fields: &ByteRecord, place: usize, text: &[u8]) -> bool
    ensures { IsTrue result ↔ SaysAt (fields_of fields.now) place text.now }
{
    match fields.get(place) {
        Some(field) => without_spaces(field) == text,
        None => false,
    }
}

/// Whether the fields from this place on say the names of a row's fields.
fn says_row_names(fields: &ByteRecord, first: usize) -> bool
    requires { first ≤ 1 }
    ensures { IsTrue result ↔ SaysRowNames (fields_of fields.now) first }
{
    says(fields, first, b"time")
        && says(fields, first + 1, b"origin")
        && says(fields, first + 2, b"destination")
        && says(fields, first + 3, b"persons")
}

/// Whether the record is the header of one building's rows.
fn is_row_header(fields: &ByteRecord) -> bool
    ensures { IsTrue result ↔ SaysRowHeader (fields_of fields.now) }
{
    fields.len() == 4 && says_row_names(fields, 0)
}

/// Whether the record is the header of several banks' rows.
fn is_bank_row_header(fields: &ByteRecord) -> bool
    ensures { IsTrue result ↔ SaysBankRowHeader (fields_of fields.now) }
{
    fields.len() == 5 && says(fields, 0, b"bank") && says_row_names(fields, 1)
}

/// Whether the record is this header.
fn is_header_record(fields: &ByteRecord, header: Header) -> bool
    ensures { IsTrue result ↔ SaysHeader header (fields_of fields.now) }
{
    match header {
        Header::Rows => is_row_header(fields),
        Header::BankRows => is_bank_row_header(fields),
    }
}

/// Whether the line is this header: its names, and no other fields. Spaces at both ends of a field do not
/// count. It fails only where there is no memory left.
pub fn is_header(alloc: Global, line: &[u8], header: Header) -> Result<bool, AllocError>
    ensures { IfOk result (λ is. IsTrue is ↔ (texts_of_line line.now ≡ Some (header_fields header))) }
{
    match record_of(alloc, line)? {
        Some(record) => Ok(is_header_record(&record, header)),
        None => Ok(false),
    }
}
