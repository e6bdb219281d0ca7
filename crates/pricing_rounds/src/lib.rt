//! A round of pricings: every car at each of a few nodes, shared by workers.
//!
//! Prices, values and worths are in thousandths of a cost unit. Cars and calls are named by their index.
//!
//! # What is promised
//!
//! - `price_nodes` prices every car at each of at most four nodes, by any `Pricer` and any crew at 1 to 16
//!   desks: each place has a right answer, in the order of the nodes and, within one, of the cars
//!   (`AreAnswersOf`). A round that was told to stop answers nothing, and under a gate that never stops
//!   none is.
//!
//! Each pricing is one job of a `Round`, which a crew does (`PricingCrew`): the calling thread alone, or
//! several threads with a desk for each. The jobs are drawn by falling size (`drawing_order`), which the
//! caller foretells. No clause rests on what it foretells, since `in_places` puts each answer of the drawn
//! order into its place.
#![tactic(auto)]

mod crews;
mod desks;
mod drawing;
mod rounds;
mod stopping;
mod tasks;

pub use crews::PricingCrew;
pub use desks::desks_for;
pub use rounds::{Round, price_nodes};
pub use tasks::Task;
