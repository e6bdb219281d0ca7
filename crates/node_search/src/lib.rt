//! The search for the cheapest plan of a snapshot: turns at the root, then rounds over a tree of nodes, with
//! a pool of tours from which plans are made.
//!
//! It knows a pricer by its trait alone. Which prices are tried and where a node is split are choices: no
//! theorem rests on them.
//!
//! # What is promised
//!
//! - `find_plan`, for any `Pricer`, start plan, first leaf, limits and 1 to 16 workers: a feasible plan and
//!   its cost, a bound, a tree that proves them, of at most 8 twigs a round and one more; turns at the root
//!   by their rule of steps, none of whose bounds is greater, and no cheaper plan made of their tours
//!   (`IsFound` of `search_model`). And why it ended: solved, the rounds used up, or a car with as many
//!   partial tours as the limit in a node in which each call has one car left; where that holds of the last
//!   state and nothing is left to price, it is the car, also where the rounds are used up (`HasReason`). Where
//!   the limits are enough for the snapshot and the gate never stops it, it is solved. It states no claims. The
//!   gate is told how far the search has come; no answer depends on it.
//!
//! # How it goes
//!
//! `Root` makes the turns at the root, each one pricing of every car, after which the pool is asked: at most
//! twenty, or one where no call has two cars (`IsRoot`: what holds between turns). Then the root is split and
//! `Search` goes on by rounds (`IsSearching`): `choose` takes at most four leaves, the lowest bounds first,
//! then the deeper, then the older ones; all their cars are priced in one round of jobs; `settle_all` takes
//! the answers in from the last leaf to the first, since a split moves only what comes after it. A leaf in
//! which each call has one car left is priced once: where no car reached the limit its tours make a plan that
//! costs no more than its bound (`proofs/PlanLaws.antt`). The other leaves are split after at most twenty
//! pricings. So at the end each open leaf has a car with as many partial tours as the limit, or the rounds
//! are used up. Prices and splits come from `branching_rules`, and no contract knows them.
#![tactic(auto)]

mod best;
mod choosing;
mod found;
mod root;
mod rounds;
mod search;
mod steps;
mod telling;

pub(crate) use best::Best;
pub use found::{Found, find_plan};
pub(crate) use root::Root;
pub(crate) use search::Search;
