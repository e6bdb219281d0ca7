//! What tests and measurements of several crates make: draws, the texts of snapshots and the snapshots in
//! them, tours and plans in short texts, what these cost (also where they may break a rule), counts of
//! checks, a run of the program over a source and a sink in memory, and a gate that tells whether jobs are
//! done side by side.
//!
//! What answers an `Option` or a `bool` says `None` or no when out of memory, so that a test fails then. With
//! few early returns, and few values to drop at them, what calls it is proved fast.
#![tactic(auto)]

mod checks;
mod commands;
mod costs;
mod draws;
mod lending;
mod lines;
mod lookout;
mod reading;
mod watched;
mod written;

pub use checks::{Checks, are_right, print_kinds};
pub use commands::{push_word, status_of, watched_status_of};
pub use costs::{boards_of, lawful_cost, plan_price};
pub use draws::draws_of_case;
pub use lending::is_so_of;
pub use lines::{put_call, put_group, put_lines, put_state};
pub use lookout::Lookout;
pub use reading::{WORKED_CASE, snapshot_in};
pub use written::{plan_in, tour_in};
