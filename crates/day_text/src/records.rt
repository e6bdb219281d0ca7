//! Lines as records of fields.

ghost use Rattle.std.specs.Prelude.{◌≡◌, ◌≤◌, IfOk, length, option_map};
ghost use Rattle.std.specs.List.{list_any};
ghost use Rattle.csv.specs.Records.{fields_of};
ghost use Rattle.day_text.specs.Records.{begins_with_mark as begins_with_mark_lem, ends_line, is_set_apart};
ghost use Rattle.day_text.specs.Records.{fields_read as fields_read_lem, fields_of_line};
ghost use Rattle.day_text.specs.Records.{without_spaces as without_spaces_lem};
ghost use Rattle.day_text.specs.Records.{without_spaces_before as without_spaces_before_lem, end_of_field};

use csv::{ByteRecord, ReaderBuilder};
use std::alloc::{AllocError, Global};

/// The first bytes of some texts, which name their encoding.
const BYTE_ORDER_MARK: &[u8] = b"\xEF\xBB\xBF";

fn begins_with_mark(line: &[u8]) -> bool
    ensures { result ≡ begins_with_mark_lem line.now }
{
    line.starts_with(BYTE_ORDER_MARK)
}

fn has_line_end(line: &[u8]) -> bool
    ensures { result ≡ list_any ends_line line.now }
{
    line.iter().any(|byte| *byte == b'\n' || *byte == b'\r')
}

/// Whether the line is no record, whatever a reader of records makes of it: it begins with a byte order mark,
/// or has the end of a line inside it.
fn is_set_apart(line: &[u8]) -> bool
    ensures { result ≡ is_set_apart line.now }
{
    begins_with_mark(line) || has_line_end(line)
}

/// The first record that is read from the line.
fn read_record(alloc: Global, line: &[u8]) -> Result<Option<ByteRecord>, AllocError>
    ensures { IfOk result (λ read. option_map fields_of read ≡ fields_read_lem line.now) }
{
    let mut reader = ReaderBuilder::new()
        .has_headers(false)
        .flexible(true)
        .from_reader(alloc, line);
    let mut record = ByteRecord::new(alloc);
    // A line in memory can be read, and no record of any length is refused: only memory can run out.
    match reader.read_byte_record(&mut record) {
        Ok(true) => Ok(Some(record)),
        Ok(false) => Ok(None),
        Err(_) => Err(AllocError),
    }
}

/// The record that the line is, if it is one (RFC 4180: commas, double quotes): its fields as they stand.
///
/// A line that begins with a byte order mark, or has the end of a line inside it, is none. It fails only
/// where there is no memory left.
pub fn record_of(alloc: Global, line: &[u8]) -> Result<Option<ByteRecord>, AllocError>
    ensures { IfOk result (λ read. option_map fields_of read ≡ fields_of_line line.now) }
{
    if is_set_apart(line) {
        return Ok(None);
    }
    read_record(alloc, line)
}

/// The field from its first byte on that is no space.
fn without_spaces_before(field: &[u8]) -> &[u8]
    ensures { result.now ≡ without_spaces_before_lem field.now }
{
    for (start, byte) in field.iter().enumerate() {
        if *byte != b' ' {
            return &field[start..];
        }
    }
    &[]
}

/// How many bytes come before the spaces at the end.
fn end_of_field(field: &[u8]) -> usize
    ensures end { result ≡ end_of_field field.now }
    ensures within { result ≤ length field.now }
{
    let mut end = field.len();
    while end > 0 && field[end - 1] == b' ' {
        end -= 1;
    }
    end
}

/// What stands in the field, without the spaces at its ends. Other blanks, as tabs, are bytes of the field.
pub fn without_spaces(field: &[u8]) -> &[u8]
    ensures { result.now ≡ without_spaces_lem field.now }
{
    let text = without_spaces_before(field);
    &text[..end_of_field(text)]
}
