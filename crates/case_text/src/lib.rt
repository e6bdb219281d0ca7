//! Cases as text: a building, and then a snapshot of it, read line by line and written; and tables of measured
//! travel times as texts of their own.
//!
//! # What is promised
//!
//! - `read_case`, `read_end` and `read_lone_case` accept exactly the lines of a building and a snapshot of it
//!   (`CaseInFront`), the end of the input with no other line that has a word, and both; else the first bad
//!   line with its one code, in the building, in the snapshot after a right building, or after a right case
//!   (`IsLoneCaseFault`).
//! - `write_case` appends the canonical text of a building and its snapshot, which is the text of that
//!   snapshot, for every snapshot that has one (`again`). When out of memory nothing was appended.
//! - `read_asked_case` accepts exactly the texts of a case whose last call is asked about
//!   (`IsAskedCaseText`): there is such a call, and no car is stated for it. It gives that snapshot. Of any
//!   other text it tells what is wrong first (`IsAskFault`): the first bad line of the building or of the
//!   snapshot, with its one code; then that nothing can be asked about, with the number of the snapshot's
//!   line `end` (`IsNothingAsked`); and then what is wrong after that line.
//! - `read_lone_table` accepts exactly the texts of a table (`IsTableText`): a line `table 1`, a line `times`
//!   for each floor, `end`, and no other line with a word. It gives that table; else the first bad line with
//!   its one code, among those lines or after them (`IsLoneTableFault`).
//! - A `Table` has 2 to 64 floors, and its times lie in their ranges (`IsTable`). Whether a way over a third
//!   floor is shorter is no matter of the text: `Table::judge` says it, once the text was read.
//!
//! What each line of a table does to a `Draft` is a definition (`after` of `specs/TableDrafts.antt`, with
//! worked rows in `specs/WorkedTables.antt`), and so the first bad line and its code are too.
//! `proofs/WorkedAsked.antt` has worked cases that are asked about: one without calls, one that states a car
//! for its last call alone, and one that does so for its first call alone.
#![tactic(auto)]

mod ask_faults;
mod asked_reading;
mod case_reading;
mod case_writing;
mod table_drafts;
mod table_order;
mod table_reading;
mod tables;

pub use ask_faults::AskFault;
pub use asked_reading::read_asked_case;
pub use case_reading::{read_case, read_end, read_lone_case};
pub use case_writing::write_case;
pub use table_reading::read_lone_table;
pub use tables::Table;
