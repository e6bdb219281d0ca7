//! What is drawn of a day or of a plan, read from a text: an opening, rows and the log of their day, or a case
//! and an answer to it.
//!
//! Moments are in ms. A log names calls by the numbers of their rows and cars by their ids; in a plan both are
//! indexes. A picture of a plan has a minute for each stop: what a car does at its k-th stop has the moment
//! 60,000 k, and at 0 each car is where it stands, comes to or comes from.
//!
//! # What is promised
//!
//! - `read_day_scene` reads what `lift day` reads, and behind the line `day 1` the log that it wrote, with
//!   certificates or without. It gives what is drawn of that day (`day_telling`): the wait or the ride that
//!   each event of the log ends, in the log's order, and the rows that it refuses.
//! - `read_plan_scene` reads a building, a snapshot and an answer, as `solve` writes one, and gives what is
//!   drawn of its plan (`plan_telling`): for each car where it is, each stop, each ride that ends there, and
//!   the wait of each call that boards there.
//! - Any other text is refused with its first bad line and one code, and that line's end shows in the bytes that
//!   were taken. Where a text tells a day or a plan, that is read, and only a failed read and want of memory
//!   come in its place (`IsAnsweredBy` of `specs/Tellings.antt`).
//!
//! What each line of a log does is a definition (`after` of `specs/LogDrafts.antt`, with worked rows in
//! `proofs/WorkedLogs.antt`). Each row has its line, in their order; each event names a row that says a call
//! and a car of the building; a call is delivered after it boarded. The plans are passed over, and so are
//! answers and certificates up to their ends: whether a log is the one of its day is what `audit` says, not
//! a picture.
//!
//! `specs/PlanLegs.antt` says what is drawn of a plan, with a worked one in `proofs/WorkedPlans.antt`. Nobody
//! judges the plan: who boards gets off at the next stop at the destination, and where there is none, nowhere;
//! a call that boards nowhere has no bar. Whether a plan is feasible is what `check` says, not a picture.
#![tactic(auto)]

mod day_reading;
mod log_drafts;
mod log_kinds;
mod log_legs;
mod plan_reading;
mod plan_tours;

pub use day_reading::read_day_scene;
pub use plan_reading::read_plan_scene;
