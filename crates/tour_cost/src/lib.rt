//! The times and costs of tours.
//!
//! Moments are in ms. A cost is in cost units: each person's ms of waiting and of riding counts with the
//! building's weights, and a wait past the patience counts once more.
//!
//! # What is promised
//!
//! All of it for every accepted snapshot.
//!
//! - `timeline`, `cost` and `plan_cost` are the definitions. A timeline has one entry for each stop, with the
//!   moments of the fold up to it (`TellsEachStop`): the arrival after the stops before it, and open doors
//!   and leaving as they are after it. Moments are below 10^10 and plans cost less than 10^18, so `cost`
//!   cannot overflow; it takes no memory. In a building of version 1 the cost is the short form without
//!   patience.
//! - `judge_plan` is exactly the first bad place of a plan, and none exactly where it is feasible, which is
//!   what `is_feasible` tells.
//!
//! `specs/Completing.antt` says which tours of the cars from one on complete what the cars before take. That
//! nothing taken is completed by exactly the feasible plans (`proofs/Completing.antt`) is what searches over
//! cars rest on.
#![tactic(auto)]

mod costs;
mod plans;
mod timelines;

pub use costs::cost;
pub use elevator_model::{BadPlan, Plan, Times};
pub use plans::{calls_of, is_feasible, judge_plan, plan_cost};
pub use timelines::timeline;
