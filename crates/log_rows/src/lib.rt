//! The rows of a day in front of its log.
//!
//! # What is promised
//!
//! - `read_rows` reads the lines up to the first that is exactly `day 1`, which begins the log, and gives
//!   their rows (`RowsBeforeLog`): what each line says that is neither empty nor over-long, where its
//!   numbers lie in their ranges. Where no line is that one, the line after the last is the first bad one, and
//!   its end shows in the bytes that were taken.
#![tactic(auto)]

mod rows;

pub use rows::read_rows;
