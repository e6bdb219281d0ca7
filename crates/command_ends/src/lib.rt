//! How a command of the program ends: with which status, and what it wrote.
//!
//! # What is promised
//!
//! - `put` writes a text that is due and answers its status; or the sink failed, its count of faults rose,
//!   and what it took is the beginning of the text (`Puts`).
//! - `put_fault` writes what is wrong with a text, its first bad line with its code or that it is too long;
//!   after a failed read, and when out of memory, it writes nothing and answers that (`PutsFault`).
//!   `put_too_long` writes that an input is too long, `put_own_fault` what one command alone refuses, with a
//!   code of its own (`PutsOwn`).
//!
//! A command says which text is due with which status (`DueTexts`), and that it ends so (`Ends`, in
//! `specs/Ends.antt`): with a status of a text, a text that is due was written whole; after a failed write, a
//! part of one; after a failed read and when out of memory, nothing. `specs/Codes.antt` has the numbers that
//! are printed for a bad line, which `number_of` gives, and the three of what one command alone refuses.
//!
//! **One frame.** A `WholeText` reads texts of one form (`specs/WholeTexts.antt`): what each says, and what is
//! wrong first with one that says nothing. A `Command` answers what such a text says, and tells which text is
//! due with which status. `run_command` reads the input to its end and writes the answer or what is wrong, and
//! `Runs` (`specs/Runs.antt`) is all that is promised of it: how it ends with each status, that an input that
//! says something is answered, and that any other is refused, unless the source or the sink fails or memory
//! runs out. For a further command that is one `impl` of each trait.
//!
//! Commands that read otherwise show `Ends` by `proofs/EndLemmas.antt`: each of their returns takes one lemma.
#![tactic(auto)]

mod codes;
mod commands;
mod input_faults;
mod putting;
mod status;
mod whole_texts;

pub use codes::number_of;
pub use commands::{Command, run_command};
pub use input_faults::{InputFault, OwnCode};
pub use putting::{Answer, put, put_fault, put_own_fault, put_too_long};
pub use status::Status;
pub use whole_texts::WholeText;
