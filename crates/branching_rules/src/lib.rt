//! How prices move below the root of a search, and where a node is split.
//!
//! Nothing that a search answers rests on these choices: they decide how soon it ends. So no contract says
//! how good they are.
//!
//! Prices, sums and gains are in thousandths of a cost unit. Averages, shares and rates are in 2^20ths. Cars
//! and calls are named by their index.
//!
//! # What is promised
//!
//! - `Steps` gives one price for each call, and a part that divides its call's set, where some call has two
//!   cars, and nothing overflows. Nothing is promised of how good they are.
//!
//! `Steps` belongs to a node of the tree: how far calls were boarded too often or not at all, how much the
//! last pricings gained, which car took which call how often, and how many partial tours each car's last
//! pricing tried; the parts of a split begin with most of it. The prices of the next pricing come from thirty
//! steps of ascent over the pool's tours in the node, taken back towards the leaf's prices where that gained
//! nothing, or are a step along the averaged violation. Where that gains little, an `Outlook` looks after each
//! pricing at the tours seen that lie in the node: the linear relaxation of set partitioning over them gives the
//! next prices, promises how much they gain, and tells how the calls are shared by the cars.
//! `is_due` says when a node is split, `choice` at which call and how; `tried` foretells how long each pricing may
//! take.
#![tactic(auto)]

mod ascent;
mod boards;
mod columns;
mod fixed;
mod moves;
mod outlooks;
mod parts;
mod shares;
mod steps;

pub use outlooks::Outlook;
pub use steps::Steps;
