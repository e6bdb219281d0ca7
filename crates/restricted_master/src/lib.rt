//! The restricted master problem of a search: a pool of tours, and the cheapest plan that is made of them.
//!
//! Prices are in thousandths of a cost unit, costs in cost units. Cars and calls are named by their index,
//! from 0.
//!
//! # What is promised
//!
//! All of it for every accepted snapshot.
//!
//! - `Pool::new` has no tours. `put` gives exactly the car's list of the definition (`with_tour`): the newest
//!   32 tours, each once, the oldest first (`IsPool`). It takes no memory, since a pool has its room from the
//!   start.
//! - `Pool::columns` lends the car's tours, each feasible, with exactly the calls that board in it and its
//!   cost (`IsColumn`).
//! - `Pool::select` gives the cheapest feasible plan that is made of tours of the pool, and None exactly
//!   where there is none, unless it is spent. Any plan that it gives, spent or not, is feasible, made of
//!   tours of the pool, and has the stated cost. It is spent only where the pool has at least `limit` partial
//!   selections (`selection_count`), so never with a limit from 34 to the power of the number of cars on.
//!   Nothing is promised of how many it tries.
//! - `Pool::select_below`: the same of the plans that cost less than a limit, and None exactly where none
//!   does, unless it is spent. This is what a search needs.
//! - `adjust`: after a turn each price moves by the step times one less the count, cut at plus and minus
//!   10^24.
//!
//! # How it selects
//!
//! The search over the cars (`car_search`) knows no tours: it takes one candidate for each car, each with a
//! cost and a set of calls, so that each call is taken once. Its bound is the prices that are not paid yet,
//! the least reduced costs of the cars and the excess of the picks (`proofs/PricedLemmas.antt`: each call is
//! taken once, so at any prices these three make the cost). Plans that cost no more than the target are
//! looked for first (`picks_below`). `proofs/PlanLemmas.antt` goes from picks to plans and back, over
//! `Completes` of `tour_cost`. The prices come from the given ones by a subgradient ascent of 60 steps over
//! the pool's tours (`ascent`), of which only safety is proved: the selection is right at any prices.
#![tactic(auto)]

mod ascent;
mod columns;
mod pools;
mod prices;
mod selecting;

pub use columns::{Column, MOST_TOURS};
pub use elevator_model::{Plan, Tour};
pub use pools::Pool;
pub use price_ascent::adjust;
pub use selecting::Choice;
