//! The cheapest plan of a snapshot: the search of its tree with a pricer of tours, from a plan and from
//! prices to begin with.
//!
//! Costs are in cost units, prices and worths in thousandths of one, moments in ms. Cars, calls and groups
//! aboard are named by their index.
//!
//! # What is promised
//!
//! - `solve` is the search of `node_search` for a snapshot, with the searcher of `pricing_search`, from a
//!   plan of `first_plan` and from the prices and worths that `start_leaf` states. It answers
//!   `IsSolveAnswer`, with the limit that the state after the last round names (`HasReasonOf`), and it ends
//!   solved wherever the limits are enough for the snapshot. `solve_from` begins with a given plan, and asks a
//!   gate whether it may go on: where it was told to stop, all holds but the reason that holds of a search
//!   which may do some number of rounds, at most the limit (`IsSnapshotAnswer`). They state no claims: what
//!   states them comes after them. A crew makes their pricings (`SearchCrew`), the calling thread alone or one
//!   that starts threads.
//! - `solve_root` makes turns at the root, as many as is asked for, with the same pricer, plan and prices, by
//!   `root_prices` (`IsRootSolution`).
//! - `start_leaf` gives the leaf with which a search starts, as a certificate states it: the price of a call
//!   is its least lone cost, the worth of a car the completion bound of its empty partial tour, each claim 1.
//!   Each worth is one in the root, and no kept list is longer than its claim, so that the leaf alone is a
//!   certificate. The sum is a thousand times the floor below which no bound of a search lies
//!   (`IsStartLeaf`).
#![tactic(auto)]

mod costs;
mod crews;
mod gates;
mod rooting;
mod solving;
mod starts;

pub use crews::SearchCrew;
pub use node_search::Found;
pub use rooting::solve_root;
pub use solving::{solve, solve_from};
pub use starts::start_leaf;
