//! Rows: what a record says of a call.

ghost use Rattle.std.specs.Prelude.{◌≡◌, ◌≤◌, ◌<◌, ◌^◌, ◌-◌, IfOk, IfSome, option_map};
ghost use Rattle.csv.specs.Records.{fields_of, field_at};
ghost use Rattle.elevator_model.specs.Building.{floor_count};
ghost use Rattle.search_model.specs.Days.{call_of_row};
ghost use Rattle.lift_text.specs.Numbers.{digits_number};
ghost use Rattle.day_text.specs.Records.{without_spaces, number_said, row_of_fields, row_of_line, row_within};
ghost use Rattle.day_text.specs.Records.{at_most as at_most_lem, numbers_within};
ghost use Rattle.day_text.specs.Records.{carries_someone as carries_someone_lem, row_as_said};

use crate::records::{record_of, without_spaces};
use call_state::{Building, Call};
use csv::ByteRecord;
use elevator_model::{LATEST_SNAPSHOT, MOST_PERSONS};
use lift_text::number_in;
use std::alloc::{AllocError, Global};

/// A row whose numbers lie in their ranges.
#[derive(Clone, Copy)]
pub struct GoodRow {
    /// When the call comes, in ms.
    pub time: u64,
    pub origin: u32,
    pub destination: u32,
    pub persons: u32,
}

impl GoodRow {
    /// Whether there is somebody who goes to another floor.
    fn carries_someone(&self) -> bool
        ensures { result ≡ carries_someone_lem (row_as_said self.now) }
    {
        self.origin != self.destination && self.persons > 0
    }

    /// The call that the row brings, where this is its number.
    pub fn call(&self, number: u32) -> Call
        ensures { result ≡ call_of_row number (row_as_said self.now) }
    {
        Call {
            id: number,
            origin: self.origin,
            destination: self.destination,
            persons: self.persons,
            released: self.time,
            pin: None,
        }
    }
}

/// The number of decimal digits, where there are some and it is at most `most`.
fn number_in_digits(text: &[u8], most: u64) -> Option<u64>
    ensures value { result ≡ at_most_lem most (digits_number text.now) }
    ensures within { IfSome result (λ number. number ≤ most) }
{
    match number_in(text, 0, i128::from(most)) {
        Ok(number) => Some(number as u64),
        Err(_) => None,
    }
}

/// The number in the field at this place, where it is at most `most`.
fn number_at(fields: &ByteRecord, place: usize, most: u64) -> Option<u64>
    ensures value { result ≡ at_most_lem most (number_said (field_at (fields_of fields.now) place)) }
    ensures within { IfSome result (λ number. number ≤ most) }
{
    number_in_digits(without_spaces(fields.get(place)?), most)
}

/// The floor in the field at this place, where the building has it.
fn floor_at(building: &Building, fields: &ByteRecord, place: usize) -> Option<u32>
    ensures { result ≡ at_most_lem (floor_count building.now - 1)
        (number_said (field_at (fields_of fields.now) place)) }
{
    let top = building.heights().len() as u64 - 1;
    let floor = number_at(fields, place, top)?;
    Some(floor as u32)
}

/// The four numbers of the record, where each lies in the range of its field.
fn numbers_in(building: &Building, fields: &ByteRecord) -> Option<GoodRow>
    ensures { option_map row_as_said result ≡ numbers_within building.now (fields_of fields.now) }
{
    let time = number_at(fields, 0, LATEST_SNAPSHOT)?;
    let origin = floor_at(building, fields, 1)?;
    let destination = floor_at(building, fields, 2)?;
    let persons = number_at(fields, 3, u64::from(MOST_PERSONS))? as u32;
    Some(GoodRow {
        time,
        origin,
        destination,
        persons,
    })
}

/// The row that the record says, where its numbers lie in their ranges.
fn row_in(building: &Building, fields: &ByteRecord) -> Option<GoodRow>
    ensures { option_map row_as_said result ≡ row_within building.now (row_of_fields (fields_of fields.now)) }
{
    prove!(building.heights().len() >= 2);
    if fields.len() != 4 {
        return None;
    }
    let row = numbers_in(building, fields)?;
    row.carries_someone().then_some(row)
}

/// The row that the line says, where its numbers lie in their ranges. It fails only where there is no memory
/// left.
pub fn read_row(
    alloc: Global,
    building: &Building,
    line: &[u8],
) -> Result<Option<GoodRow>, AllocError>
    ensures { IfOk result (λ row. option_map row_as_said row ≡ row_within building.now (row_of_line line.now)) }
{
    match record_of(alloc, line)? {
        Some(fields) => Ok(row_in(building, &fields)),
        None => Ok(None),
    }
}
