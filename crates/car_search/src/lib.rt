//! The cheapest choice of one candidate for each car, such that each call is taken as often as it has to be.
//!
//! The search knows no tours. A candidate is what a car may have: it has a cost and takes calls, each a
//! number of times (`CallCounts`). Where each call has to be taken once, a set of calls says which a
//! candidate takes.
//!
//! # What is promised
//!
//! - `cheapest_picks`: the cheapest picks that take each call as often as it has to be, and none more often,
//!   and None exactly where no such picks cost less than `beat`, unless it is spent. Any picks that it gives,
//!   spent or not, take the calls so, and have the stated cost. It is spent only where there are at least
//!   `limit` ways to pick for the first cars (`pick_count`). Nothing is promised of how many it tries.
//!
//! # How it searches
//!
//! Depth first over the cars (`search`). The excess of a candidate is how much its reduced cost at some
//! prices lies above the least one of its car, and a car's candidates are sorted by it. What picks cost is at
//! least the bound and their excess together. Where that reaches the cost to beat at a candidate, the rest of
//! the car's list is left. A candidate is passed by that takes a call too often, or with which one is taken
//! too seldom that no later car's candidates have (`Cover`).
#![tactic(auto)]

mod candidates;
mod counts;
mod cover;
mod search;
mod selections;

pub use candidates::{Candidate, CarChoice};
pub use counts::{CallCounts, are_apart};
pub use search::{Outcome, cheapest_picks, first_calls, sum_of_least};
pub use selections::Selection;
