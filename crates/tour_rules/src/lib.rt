//! The rules of tours: which tour is feasible, and where a tour first breaks a rule.
//!
//! # What is promised
//!
//! All of it for every accepted snapshot.
//!
//! - `judge` and `judge_after` give exactly the first bad stop of a tour and the lowest rule broken there;
//!   the second where tours of other cars took some calls.
//! - `Walker` is a car that goes through a tour stop after stop: the moments, who is carried and who gets
//!   off, as the definition's fold has them (`Walks`), for any stops at floors of the building where any
//!   calls board. It tells when the car arrives and which calls get off at a next stop.
//! - `first_floors` are exactly the floors where a car may make its first stop, if it serves them.
//! - `cost_of_call` and `cost_of_group` are what the riders of a call, of a group cost who get off at a given
//!   moment.
//! - `moves_reach` and `ended_feasible`, lemmas (`proofs/Reached.antt`): each feasible tour is reached by
//!   lawful moves from the empty list, and each list of them that ends is a feasible tour. `lawful_short`: a
//!   lawful list has at most three moves for each call, one for each group and two. The search rests on
//!   these.
//!
//! `places` and `rules` are the tests of one stop; `riding` has the moments of a stop and the cost of those
//! who get off there, for tours and partial tours alike.
#![tactic(auto)]

mod first_stops;
mod judging;
pub mod places;
pub mod riding;
pub mod rules;
pub mod walking;

pub use call_sets::{CallSet, FloorSet};
pub use elevator_model::{Boards, Broken, Rule, Stop, Tour};
pub use first_stops::first_floors;
pub use judging::{broken_at_end, judge, judge_after};
