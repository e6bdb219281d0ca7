//! Lines of rows, each with the id of its bank in front.

ghost use Rattle.std.specs.Prelude.{◌≡◌, [], IfOk, OnOk, option_map};
ghost use Rattle.std.specs.List.{list_all};
ghost use Rattle.std.specs.Char.{is_ascii_digit};
ghost use Rattle.csv.specs.Records.{fields_of, field_at};
ghost use Rattle.lift_text.specs.Numbers.{digits_number};
ghost use Rattle.day_text.specs.Records.{at_most, row_of_line};
ghost use Rattle.bank_text.specs.BankRows.{digits_said, four_texts, greatest_id, id_said};
ghost use Rattle.bank_text.specs.BankRows.{is_number as is_number_lem, row_behind as row_behind_lem};
ghost use Rattle.bank_text.specs.BankRows.{row_said, said_by, said_of_fields, said_of_short};
ghost use Rattle.bank_text.specs.BankRows.{texts_line, texts_of};

use crate::banks::BankRow;
use csv::ByteRecord;
use day_text::{record_of, without_spaces};
use lift_text::number_in;
use std::alloc::{AllocError, Global};

/// A row with the id of its bank.
#[derive(Drop)]
pub(crate) struct NamedRow {
    pub(crate) id: u32,
    pub(crate) row: BankRow,
}

/// The four numbers of a row, as they are written.
#[derive(Clone, Copy)]
struct RowDigits<'a> {
    time: &'a [u8],
    origin: &'a [u8],
    destination: &'a [u8],
    persons: &'a [u8],
}

/// The id that decimal digits write, where there are some and it is one.
fn id_in_digits(text: &[u8]) -> Option<u32>
    ensures { result ≡ at_most greatest_id (digits_number text.now) }
{
    match number_in(text, 0, i128::from(u32::MAX)) {
        Ok(id) => Some(id as u32),
        Err(_) => None,
    }
}

/// The id in the first field, where it has one.
fn id_in_front(fields: &ByteRecord) -> Option<u32>
    ensures { result ≡ id_said (field_at (fields_of fields.now) 0) }
{
    id_in_digits(without_spaces(fields.get(0)?))
}

fn are_digits(text: &[u8]) -> bool
    ensures { result ≡ list_all is_ascii_digit text.now }
{
    text.iter().all(|byte| byte.is_ascii_digit())
}

/// Whether the text is one or more decimal digits.
fn is_number(text: &[u8]) -> bool
    ensures { result ≡ is_number_lem text.now }
{
    !text.is_empty() && are_digits(text)
}

/// The digits in the field at this place, where it has nothing else but spaces at its ends.
fn digits_at(fields: &ByteRecord, place: usize) -> Option<&[u8]>
    ensures { option_map (λ text. text.now) result ≡ digits_said (field_at (fields_of fields.now) place) }
{
    let text = without_spaces(fields.get(place)?);
    if is_number(text) { Some(text) } else { None }
}

/// The digits in the four fields behind the first, where each has some.
fn digits_behind(fields: &ByteRecord) -> Option<RowDigits<'_>>
    ensures { option_map texts_of result ≡ four_texts (digits_said (field_at (fields_of fields.now) 1))
        (digits_said (field_at (fields_of fields.now) 2))
        (digits_said (field_at (fields_of fields.now) 3))
        (digits_said (field_at (fields_of fields.now) 4)) }
{
    let time = digits_at(fields, 1)?;
    let origin = digits_at(fields, 2)?;
    let destination = digits_at(fields, 3)?;
    let persons = digits_at(fields, 4)?;
    Some(RowDigits {
        time,
        origin,
        destination,
        persons,
    })
}

/// Puts the numbers, with commas between them, into the empty line.
fn put_digits(digits: &RowDigits, line: &mut Vec<u8>) -> Result<(), AllocError>
    requires { line.old.items ≡ [] }
    ensures { OnOk result (line.new.items ≡ texts_line (texts_of digits.now)) }
{
    line.extend_from_slice(digits.time)?;
    line.push(b',')?;
    line.extend_from_slice(digits.origin)?;
    line.push(b',')?;
    line.extend_from_slice(digits.destination)?;
    line.push(b',')?;
    line.extend_from_slice(digits.persons)
}

/// The row that the numbers say.
fn row_of_digits(alloc: Global, digits: &RowDigits) -> Result<BankRow, AllocError>
    ensures { IfOk result (λ row. row_said row ≡ row_of_line (texts_line (texts_of digits.now))) }
{
    let mut line = Vec::new(alloc);
    put_digits(digits, &mut line)?;
    Ok(BankRow::Fields(line))
}

/// The row that the fields behind the first say, where they are four numbers.
fn row_behind(alloc: Global, fields: &ByteRecord) -> Result<BankRow, AllocError>
    ensures { IfOk result (λ row. row_said row ≡ row_behind_lem (fields_of fields.now)) }
{
    if fields.len() != 5 {
        return Ok(BankRow::Other);
    }
    match digits_behind(fields) {
        Some(digits) => row_of_digits(alloc, &digits),
        None => Ok(BankRow::Other),
    }
}

/// What the fields of a line say.
fn named_row(alloc: Global, fields: &ByteRecord) -> Result<Option<NamedRow>, AllocError>
    ensures { IfOk result (λ named. option_map said_by named ≡ said_of_fields (fields_of fields.now)) }
{
    let Some(id) = id_in_front(fields) else {
        return Ok(None);
    };
    let row = row_behind(alloc, fields)?;
    Ok(Some(NamedRow { id, row }))
}

/// What a line of at most 4,096 bytes says: a row with an id in front of it, or nothing. It fails only where
/// there is no memory left.
pub(crate) fn read_named_row(alloc: Global, line: &[u8]) -> Result<Option<NamedRow>, AllocError>
    ensures { IfOk result (λ named. option_map said_by named ≡ said_of_short line.now) }
{
    match record_of(alloc, line)? {
        Some(fields) => named_row(alloc, &fields),
        None => Ok(None),
    }
}
