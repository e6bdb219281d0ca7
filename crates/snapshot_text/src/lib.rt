//! The snapshot section of a text: read line by line, and written.
//!
//! Floors are numbered from 0, moments are in ms. Cars, groups and calls have ids in the text.
//!
//! # What is promised
//!
//! - `read_snapshot` and `read_opening` accept exactly the lists of lines that stand for a snapshot of the
//!   building, or for the opening one of a day (`StandsFor`), and give that snapshot; else the first bad line
//!   with its one code (`refused`). What follows stays unread. What was accepted began with lines that stand
//!   for the answer (`said`), and lines that stand for a snapshot are read as that one, whatever follows
//!   (`lines`). A snapshot whose lines were taken is accepted, so it is not judged again.
//! - `write_snapshot` appends the canonical text; when out of memory nothing was appended. The text of a
//!   snapshot whose ids are below 2^32 is read as that snapshot again (`written`).
//!
//! `specs/Drafts.antt` says what each line does to the section as far as it was read. An id is looked up in
//! an index of those before it. A group's line still goes through the groups before it, of which there are at
//! most 1,024, for the persons and the sides of its car.
#![tactic(auto)]

mod drafts;
mod ids;
mod kinds;
mod reading;
mod said;
mod writing;

pub use ids::{id_of_call, id_of_car};
pub use reading::{read_opening, read_snapshot};
pub use said::car_named;
pub use writing::write_snapshot;
