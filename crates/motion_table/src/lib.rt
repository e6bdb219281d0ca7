//! Tables of measured travel times.
//!
//! # What is promised
//!
//! - `judge_table` refuses exactly where three floors break the triangle inequality, with the first such
//!   three; a table without such floors is a travel square. It first asks `are_rows_direct` of the whole
//!   table, and looks for the floors only where there are some.
//! - `read_times` and `read_row` give the lines of a table, one for each floor, or the first bad one with its
//!   code. Whether a way over a third floor is shorter is left to the caller, who judges it after the last
//!   line.
#![tactic(auto)]

mod tables;
mod triples;

pub use tables::{read_row, read_times};
pub use triples::{Triple, judge_table};
