//! The lines, words and numbers of a text: read from a source of bytes, and written.
//!
//! # What is promised
//!
//! - `LineReader`: each call is its definition over the bytes of the source, in whatever pieces they come,
//!   with exact causes of refusal. It says how many bytes were taken from the source with each answer, and
//!   that the end of the line that was read, or of the bad one, showed in them (`LineShows`): so a reader over
//!   several calls says which line of its text showed (`ShowsEnd`), with nothing to add up. The source is not
//!   asked where the bytes read before have the whole line, nor once it has said that it is at its end; so
//!   after a failed read each line that was answered has its LF among the bytes that were taken, and they hold
//!   no line that was still due.
//! - `put_number`, `put_word`, `put_words`, `put_line`: what is appended; when out of memory, a front of it.
//! - `number_in`: what a word writes as a number in a range, or why it writes none, for words that are in no
//!   text.
#![tactic(auto)]

mod codes;
mod faults;
mod judge;
mod numbers;
mod page;
mod places;
mod reader;
mod window;
mod words;
mod writers;

pub use byte_streams::{Source, SourceFault};
pub use codes::TextCode;
pub use faults::{RawLine, TextFault};
pub use judge::LINE_LIMIT;
pub use numbers::{NumberFault, number_in};
pub use page::{LINE_COUNT_BOUND, TEXT_LIMIT};
pub use reader::LineReader;
pub use window::MOST_AHEAD;
pub use writers::{put_line, put_number, put_word, put_words};
