//! The input of several banks of cars: for each a building and an opening snapshot, and rows for all of them.
//!
//! # What is promised
//!
//! - `read_banks` accepts exactly the texts of banks and their rows (`IsBanksText`): the first line, one to
//!   sixteen banks, each with an id of its own, the line `rows`, the header and the rows. It gives each bank
//!   with the rows that the lines behind the header say for it, in their order, and tells how many of these
//!   lines are for no bank. Of any other text it tells what is wrong first (`IsBanksFault`). Where a text is
//!   right, only a failed read and running out of memory keep it from being answered (`TakesInputs`).
//! - `read_first` takes the first line of such an input, `banks 1`, and `read_head` the line that begins the
//!   next bank, `bank ID`, or the rows of all banks, `rows`: each takes the next line with a word exactly
//!   where it says that, and else tells the line with its one code, or that the input ends before it
//!   (`IsSaidNext`). The text goes on right behind the line, whose end shows in the bytes that were taken.
//!
//! What a line says is a definition (`first_said`, `head_said`, `said_of_line`), with worked rows in
//! `proofs/Worked.antt` and `proofs/WorkedRows.antt`.
#![tactic(auto)]

mod bank_rows;
mod banks;
mod faults;
mod heads;
mod reading;
mod row_lines;

pub use banks::{Bank, BankRow};
pub use faults::BankFault;
pub use heads::{Head, read_first, read_head};
pub use reading::{BankInput, MOST_BANKS, read_banks};
