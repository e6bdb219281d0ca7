//! The linear relaxation of set partitioning: which shares of tours serve each call once and use each car once
//! at the least cost.
//!
//! It knows tours by their columns alone: a cost, a car and a set of calls. Its dual values are prices at
//! which the tours say the most of what a plan of them costs; a search tries these prices next, and splits
//! where the shares say that cars contend for a call.
//!
//! Costs and prices are in thousandths of a cost unit. Cars and calls are named by their index.
//!
//! # What is promised
//!
//! - `relax` ends, and each of its prices is a price whose way from its centre is at most the reach that was
//!   asked for. It answers none where a number would be too large.
//! - `SeenTours::put` keeps one column for each car and set of calls.
//!
//! No clause says that the prices are the dual values: they only steer a search, and no answer rests on them.
//!
//! # How it goes
//!
//! A revised simplex in whole numbers: the inverse of the basis in 2^40ths, products in 128 bits, and a refusal
//! where an entry would not fit into 64. It begins with a column for each call that is not taken, as dear as
//! its price may become, and a very dear one for each car without a tour. A call that is taken too often gives
//! back the least that its price may become. So the dual values stay within reach of their centres, as in the
//! box step method (Marsten, Hogan and Blankenship 1975), which keeps prices of few tours from leaping. In each
//! turn the columns of the least reduced costs of the cars enter, until none lowers the cost.
#![tactic(auto)]

mod columns;
mod entries;
mod fixed;
mod leaving;
mod relaxing;
mod rows;
mod simplex;

pub use columns::{Column, SeenTours};
pub use relaxing::{Relaxation, Share, relax};
