//! The answer section of a text: read line by line, and written.
//!
//! Floors are numbered from 0, costs are in cost units. Cars and calls have ids in the text and are indexes
//! in a plan.
//!
//! # What is promised
//!
//! - `read_answer` accepts exactly the lists of lines that stand for an answer to a snapshot (`StandsFor`:
//!   one tour per car, each board one of its calls, `IsWithin`), and gives that answer; else the first bad
//!   line with its one code. What follows stays unread; nobody judges the plan. The text of an answer is read
//!   as it again, with the boards of each stop by rising index (`written`).
//! - `write_answer`, `write_body`, `write_stops` append the canonical text of an answer, of its lines between
//!   the first and the last, of the stops of a tour; when out of memory nothing was appended.
//!
//! The order of a stop's boards has no meaning: they are written by rising index (`by_index`).
//! `specs/Drafts.antt` says what each line does.
#![tactic(auto)]

mod drafts;
mod kinds;
mod reading;
mod said;
mod writing;

pub use reading::read_answer;
pub use said::call_named;
pub use writing::{write_answer, write_body, write_stops};
