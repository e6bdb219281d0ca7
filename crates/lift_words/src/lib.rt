//! The words of the command line: which command they name, with which options.
//!
//! # What is promised
//!
//! - `read_words` gives the one request that the words make, its numbers in their ranges, by the table of
//!   options and `clap`'s own statement; refuses exactly the words that are not taken (`AreTaken`, in
//!   `specs/Taken.antt`); or is out of memory.
//!
//! A request is `Solve`, `Day`, `Report`, `WhatIf` or `Banks` with its limits (of `Solve` also whether
//! a certificate is, of `Day` whether certificates are wanted, of both whether progress is to be told),
//! `Check` and `Audit` with their workers, `Make` with its sizes, `Run` (`make --run`) with sizes and limits,
//! `Root` with its turns and its limit, or `Table`. The limits of a search and the workers are of types that
//! keep their ranges (`search_model::Limits`, `work_fan::Workers`). Words are taken where the second is a
//! command, no option is repeated and no word is `--` alone, `clap`'s own statement for the command's row of
//! the table (`takes`) holds of the words, and each value is a number word in its range. The request has the
//! values, or the defaults of the table (`specs/Table.antt`), and the words make no other one. `option_words`
//! has what the options of any program share; `proofs/Worked.antt` has worked rows. A new option is a variant
//! of `NumberOption` with its row, in the code and in the definition, and a field of the request.
#![tactic(auto)]

mod parsing;
mod reading;
mod request;
mod table;

pub use option_words::WordsFault;
pub use reading::read_words;
pub use request::{
    CaseSizes, CheckOptions, DayOptions, Request, RootOptions, RunOptions, SearchOptions,
    SolveOptions,
};
