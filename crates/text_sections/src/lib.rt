//! One way to read a section of a text: line after line, the first bad line decides.
//!
//! # What is promised
//!
//! - `read_section` does what the definition of a section (`Section::after`) says of the lines that are read:
//!   a line goes on, makes the section whole, or is bad with a code. It gives the state after the last line
//!   with what follows unread, right after that line, byte for byte (`StandsBehind`), or the first bad line
//!   with its one code (9 where the input ends first). The end of the last line, or of the bad one, shows in
//!   the bytes that were taken (`AnswerShows`). The written lines of a section are read as it,
//!   whatever follows: this is a clause of the call, so "the text of a value is read as that value" needs
//!   only that the lines of the value make it.
//!
//! The words of a line are judged by small calls (`exactly`, `at_least`, `at_most`, `is_word`, `number`,
//! `signed`, `numbers`), each with a definition that gives a value or a code, and a line's meaning is a chain
//! of these. `TextCode` has the codes.
#![tactic(auto)]

mod faults;
mod number_lists;
mod sections;
mod words;

pub use faults::LineFault;
pub use number_lists::numbers;
pub use sections::{AfterLine, Section, read_section};
pub use words::{at_least, at_most, exactly, is_word, number, short, signed};
