//! The texts of a day, line by line: what comes before its rows, the rows, and the lines of its log.
//!
//! Moments are in ms, costs and bounds in cost units. Floors are numbered from 0. A log names calls and cars
//! by their ids.
//!
//! # What is promised
//!
//! - `read_day_opening` accepts exactly the texts that begin with a building, an opening snapshot of it and
//!   the header of rows, and gives that snapshot, with nobody aboard and no call. The rows' bytes are what is
//!   left: `DayOpeningInFront` says it from one place of the text to another, line by line as they are. Of
//!   any other text it tells the first bad line with its one code.
//! - `read_header` reads a header of rows alone, that of one building's rows or that of several banks'
//!   (`Header`): the first line that is not empty is that header, or is the bad line.
//! - `is_header` tells whether a line is the header of rows: the names of a row's fields, or these with
//!   `bank` in front of them. `read_row` gives the row that a line says (time, origin, destination and
//!   persons) exactly where it says one of the building, with its numbers in their ranges. Either may be out
//!   of memory. `GoodRow::call` is the call that a row brings.
//! - `record_of` gives the fields of a line as they stand, and `without_spaces` what a field says: rows that
//!   have other fields too are read by them.
//! - `add_accepted` and `add_plan` append exactly the lines of an accepted row (`accepted_text`): its number and
//!   what happened until its time, and then the plan with its cost and bound, unless something that is printed
//!   in their place stands behind these already. When out of memory the text is as before.
//! - `put_refused` and `put_end` append exactly the line of a refused row and the lines after the last row;
//!   when out of memory a beginning of them may be written.
//! - `code_of` is the code that is printed for the fault of a row.
//!
//! The fields of a line are those of the first record that `csv` reads from it (RFC 4180), but a line with a
//! byte order mark in front or the end of a line inside is none (`specs/Records.antt`); spaces at both ends of
//! a field are removed. The words of a log's lines are in `specs/LogTexts.antt`.
#![tactic(auto)]

mod header_reading;
mod headers;
mod log_lines;
mod openings;
mod records;
mod rows;

pub use header_reading::read_header;
pub use headers::{Header, is_header};
pub use log_lines::{add_accepted, add_plan, code_of, put_end, put_refused};
pub use openings::read_day_opening;
pub use records::{record_of, without_spaces};
pub use rows::{GoodRow, read_row};
