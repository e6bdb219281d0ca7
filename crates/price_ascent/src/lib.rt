//! How prices move so that what is known of some tours says more.
//!
//! At any prices, these and the least values of the cars' tours together are at most what a plan of the tours
//! costs, where a tour's value is its cost without the prices of its calls. A subgradient ascent raises that
//! sum: the price of a call rises where none of the cheapest tours takes it, and falls where several do.
//!
//! Prices, values and sums are in thousandths of a cost unit. Calls are named by their index.
//!
//! # What is promised
//!
//! - `adjust`: each price moves by the step times one less the count, cut at plus and minus 10^24.
//! - `Pace::step`, at a rate of 0 or more: no price falls where its part of the direction is 0 or more, and
//!   none rises where it is 0 or less.
//!
//! Nothing is promised of how far an ascent comes, since no answer rests on its prices.
#![tactic(auto)]

mod course;
mod lacking;
mod moves;
mod paces;
mod readings;

pub use course::raise;
pub use lacking::Lacks;
pub use moves::adjust;
pub use paces::{Pace, Rounding, percent_of};
pub use readings::{Reading, Tours};
