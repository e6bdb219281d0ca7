//! Mixtures of tours at the root, and the cheapest plan in halves.
//!
//! Prices are in thousandths of a cost unit, costs in cost units. Cars and calls are named by their index,
//! from 0.
//!
//! # What is promised
//!
//! - `mixture_laws`: whatever the prices and worths at the root are, their sum is at most the cost of a
//!   mixture divided by its whole; and a pair plan is a mixture of the whole 2. This holds of every
//!   snapshot, over the definitions alone.
//! - `pairs`: the cheapest pair plan of a pool's tours, and None exactly where there is none, unless it is
//!   spent. Any shares that it gives, spent or not, are those of a pair plan that has the stated cost, in the
//!   order of the cars. It is spent only where the lists have at least `limit` partial pairings
//!   (`pairing_count`). Nothing is promised of how many it tries.
//!
//! # How it finds pairs
//!
//! As `restricted_master` selects tours, by the search over the cars (`car_search`). It takes one candidate
//! for each car, which is a pair of tours, so that each call is taken twice. Two sets count how often each
//! call is taken (`TwoSets`). The bound is the prices that are not paid yet, of which each is paid twice, the
//! least reduced costs of the cars and the excess of the picks (`proofs/PricedLemmas.antt`).
//! `proofs/PlanLemmas.antt` goes from picks to pair plans and back.
#![tactic(auto)]

mod candidates;
mod laws;
mod pairing;
mod two_sets;

use elevator_model::Tour;
pub use laws::mixture_laws;
pub use pairing::{PairChoice, pairs};

/// A tour of a car with its weight, as a mixture has it.
#[derive(Drop)]
pub struct Share {
    pub car: u32,
    /// At least 1.
    pub weight: u64,
    pub tour: Tour,
}

/// An unordered pair of places in a car's list of tours, perhaps one place twice: the second is no less than
/// the first.
#[derive(Clone, Copy)]
pub struct Pair {
    pub first: usize,
    pub second: usize,
}
