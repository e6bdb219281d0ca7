//! Turns at the root: pricings of every car, how prices move from one to the next, and the tours of them in a
//! pool.
//!
//! Prices, values and worths are in thousandths of a cost unit. Cars and calls are named by their index.
//!
//! # What is promised
//!
//! - `TurnSeries` has turns at the root, one after another, and the prices of the next one, exactly as the
//!   definition of turns at the root has them (`AreRootTurns` of `search_model`; `IsTurnSeries`). `price`
//!   prices every car at these prices, by any `Pricer`: each car has a right answer (`AreAnswersIn`);
//!   `push` puts a turn of such pricings after the others. There is no other home for this rule: each
//!   command that makes turns makes them with these.
//! - `pool_of` gives a pool with the tours of a plan and no others, `put_turn` puts the tours of a turn in.
//! - `series_none`, `series_more`, lemmas: a series without turns is one, and one with a turn more.
//!   `turn_of_pool`, a lemma: what a turn makes of a car's tours in a pool, while it holds fewer than 32.
#![tactic(auto)]

mod pools;
mod pricing;
mod series;
mod turns;

pub use pools::{pool_of, put_turn};
pub use series::TurnSeries;
