//! A day, whoever plans it: what a row brings, and the laws that no accepted call is lost.
//!
//! Moments are in ms. Calls are named by their ids, which are the numbers of their rows, from 1.
//!
//! # What is promised
//!
//! - `day_laws`: over any rows, with any feasible plans, no accepted call is lost, each is delivered once the
//!   last plan is run to its end, and by the events of the log each boards once and is delivered once, in
//!   time (`DayLaw`). Nothing is said of who plans: a simulator and an audit both stand on it.
//! - `world_of_row` is the world at the time of a row with its call, with what happens until then, or exactly
//!   why the row is refused (`IsBrought`).
//!
//! # Why nobody is lost
//!
//! It is counted (`proofs/Conserved.antt`): each rider of a world is once among those who are there later and
//! those who were let off, so an id is there as often as before, less the deliveries among the events; by the
//! end of the plan each is delivered. Counted in the same way, and by the moments of the stops, by all events
//! of a day each accepted call boards once and is delivered once, in time (`IsServedOnce`,
//! `proofs/ServedLemmas.antt`). `IsStanding` is what holds of a day between two rows, `IsServing` the same by
//! the events of the rows before, for any number of rows.
#![tactic(auto)]

mod arrivals;
mod laws;

pub use arrivals::world_of_row;
pub use laws::day_laws;
