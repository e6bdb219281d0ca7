//! The building section of a text: read line by line and judged, and written.
//!
//! # What is promised
//!
//! - `read_building` accepts exactly the lists of lines that stand for a building, of versions 1, 2 and 3
//!   (`IsBuildingText`, by line words and ranges), and gives that building; else the first bad line with its
//!   one code. What follows stays unread. By `only` it accepts no other lines, by `each` every list of such
//!   lines in front of a text is answered with its building. By `written` a text that begins with that of a
//!   building is read as that building, whatever follows: for version 3 of every building, for the others
//!   where the travel times are the least ones.
//! - `write_building` appends the canonical text (`building_text`); when out of memory nothing was appended.
//!
//! What each line does to a `Draft` is a definition (`Drafts.after`, with worked rows in `Worked.antt`), and
//! so the first bad line and its code are too.
#![tactic(auto)]

mod cars;
mod drafts;
mod order;
mod parts;
mod reading;
mod writing;

pub use reading::read_building;
pub use writing::write_building;
