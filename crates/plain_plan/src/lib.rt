//! The plain plan: a feasible plan of every accepted snapshot, found without a search, and what it is made
//! of.
//!
//! Floors, cars and calls are named by their index, from 0.
//!
//! # What is promised
//!
//! - `plan_of` gives a feasible plan for every accepted snapshot, or is out of memory. Each car lets off
//!   those aboard and then serves its calls one after another; that this is feasible is a theorem
//!   (`proofs/PlainPlan.antt`).
#![tactic(auto)]

mod choosing;
mod opening;
mod plain;
mod sorting;

pub use elevator_model::Plan;
pub use opening::opening_floors;
pub use plain::plan_of;
pub use sorting::calls_in_order;
