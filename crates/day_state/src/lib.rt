//! The world of a day: a snapshot and the plan that holds in it, how it goes on to a moment, runs to the end
//! of its plan and takes a new call.
//!
//! Moments are in ms. Floors, cars and calls are named by their index, from 0; events name calls and cars by
//! their ids. Contracts see a `World` as the definition's world.
//!
//! # What is promised
//!
//! - `World::opening` is the world with which a day begins, whose plan is feasible.
//! - `advance` makes exactly the world at a later moment (`advanced`) and appends the events until then
//!   (`events_by`); the new snapshot is accepted and the rest of the plan feasible in it, so nothing is
//!   judged again. `run_out` adds the events of the rest of the plan (`last_events`). When out of memory
//!   world and events are as before.
//! - `accept` takes a call, or refuses it exactly for its fault: as many open calls as may be, then no car
//!   that can take it. `set_plan` gives the world a feasible plan, `of_parts` is the world of a snapshot and
//!   a plan, `copy` an equal world.
//!
//! # Why what is left stays feasible
//!
//! This is the theorem, `AdvanceLaw` (`proofs/AdvanceLaws.antt`). Those who are still there have other
//! numbers in the later snapshot (`Renames`): a progress of the earlier one and one of the later one that
//! carry the same riders stay so over a stop (`Renaming`), and so the stops that are left break no rule
//! (`LaterTours`); where each car is then and when it may go on fits the snapshot's rules (`LaterStates`,
//! `LaterTimes`); each rider is in one place (`LaterRiders`, `LaterNumbers`). In code a car rides along its
//! tour (`Ride`): a walker, with those aboard in the order in which they boarded and the moment at which each
//! call did. It goes over its stops twice, the first time to count those that are reached. Nothing is
//! quadratic but the sort of the calls that board at one stop.
#![tactic(auto)]

mod openings;
mod remaining;
mod riders;
mod rides;
mod states;
mod taking;
mod worlds;

pub use call_state::{Call, Snapshot};
pub use elevator_model::Plan;
pub use search_model::Event;
pub use taking::NotTaken;
pub use worlds::World;
