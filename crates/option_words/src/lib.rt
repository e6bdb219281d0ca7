//! The options behind a command's word: each `--name value` or `--name=value`, or a flag `--name`, read by
//! `clap`.
//!
//! # What is promised
//!
//! - `with_option` and `with_flag` give a command of `clap` one argument more (`specs/Options.antt`).
//! - `options_given` gives what `clap` finds in the words of a command line where they are clear (no option is
//!   repeated, and no word is `--` alone) and `clap`'s own statement (`takes`) holds of them (`AreGiven`, in
//!   `specs/Given.antt`); refuses exactly the others; or is out of memory.
//! - `Setting::number` is the number of an option: its value, where that is a number word in the option's
//!   range, or the default where it has none. `is_given` tells of a flag.
//!
//! `proofs/TakesLemmas.antt` shows that `clap` takes the words of a plain command (`IsPlain`) wherever its
//! first fault (`fault_of`) is none. Which commands there are, with which options, is said by each program's
//! own crate.
#![tactic(auto)]

mod faults;
mod parsing;
mod repeats;
mod values;

pub use faults::WordsFault;
pub use parsing::{options_given, with_flag, with_option};
pub use values::{Setting, is_given};
