//! The command of `lift_draw`: from the words of the command line and a source to a sink and a status.
//!
//! # What is promised
//!
//! **`run`.** Status 0: the whole input was read, of a day (an opening, rows and their log) or of a plan (a
//! case and an answer), as the words ask, and its picture in the size that they ask for was written. Status
//! 2: the words ask for no picture, nothing was read, and the usage line was written. Status 5: the input is
//! no such text, and the line written tells its first bad line with its one code, or that it is too long; the
//! end of that line shows in the bytes that were taken. An input that tells what is drawn is drawn, and any
//! other is refused, unless the source or the sink fails or memory runs out.
//!
//! `specs/Words.antt` says which words ask for what (`AreTaken`), by a table of two options and `clap`'s own
//! statement. In `specs/Outcome.antt` are the definitions: `RunsDraw` is the frame of all commands that read a
//! whole text (`Runs` of `command_ends`), with what a text tells (`scene_form`) and its picture (`IsDrawn`).
//! What a text tells is defined in `picture_reader` (`day_telling`, `plan_telling`), the picture in
//! `lift_picture` (`picture_text`).
#![tactic(auto)]

mod running;
mod words;

pub use command_ends::Status;
pub use running::run;
