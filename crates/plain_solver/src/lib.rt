//! The plain, slow program that computes the definitions on small inputs: every feasible tour of a car, and
//! the cheapest plan. It tries all tours and uses no bound, and is the yardstick for every faster search.
//!
//! Costs are in cost units. Floors, cars and calls are named by their index, from 0.
//!
//! # What is promised
//!
//! - `feasible_tours` lists all feasible tours of a car, each once, for every accepted snapshot. It goes
//!   depth first from a move to the next one.
//! - `cheapest_plan` gives an **optimal** plan of any accepted snapshot and its cost, or is out of memory. It
//!   tries every choice of one tour for each car, so it is for a few calls only.
#![tactic(auto)]

mod choices;
mod plans;
mod tours;

pub use elevator_model::{Plan, Tour};
pub use plans::{Cheapest, cheapest_plan};
pub use tours::feasible_tours;
