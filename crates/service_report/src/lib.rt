//! The service figures of a day's served calls, and their text: waits, rides and total times in ms, each with
//! number, sum, greatest, three percentiles by nearest rank, and the mean as a fraction in lowest terms.
//!
//! # What is promised
//!
//! - `report_of` gives exactly the report of the definition for served calls whose total times sum to less
//!   than 2^64, of which each counts once; or is out of memory. Of moments out of order a difference counts
//!   as 0, as in the definition.
//! - `write_report` appends the text of a report (`specs/ReportTexts.antt`), which `csv` writes: no field
//!   needs quotes (`TextLemmas.antt`). When out of memory nothing was appended.
//!
//! Each list of times is sorted in place, once, in time n log n. That std's sort leaves the rising list of
//! the definition follows from its order and from the sums over its items, whatever the weights
//! (`RisingLemmas.antt`). The mean is reduced by Euclid's algorithm, whose result is the definition's
//! greatest common divisor (`DivisorLemmas.antt`).
#![tactic(auto)]

mod columns;
mod means;
mod spans;
mod writing;

pub use search_model::{Report, ReportColumn, Served};
pub use spans::report_of;
pub use writing::write_report;
