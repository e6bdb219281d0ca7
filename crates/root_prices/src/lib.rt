//! What prices at the root can prove: the best ones of turns at the root, and the cheapest plan in halves
//! that the tours of these turns allow.
//!
//! Prices and worths are in thousandths of a cost unit, costs and bounds in cost units. Cars and calls are
//! named by their index.
//!
//! # What is promised
//!
//! `root_best`, for any `Pricer`, start plan, first prices and worths, 1 to 31 rounds and any limit of
//! partial tours (`IsRootAnswer`):
//!
//! - exactly as many turns at the root as rounds, by their rule of steps, also where the bound is met
//!   earlier;
//! - the prices of the turn, or the first ones, whose sum with their worths is greatest, and the bound of it;
//! - shares that are a pair plan of the kept lists, which have each car's tours in the start plan and the
//!   turns and no others, with a cost of at most twice the start plan's. They are a mixture of the whole 2;
//! - why it is so: `Best` exactly where the cost is at most twice the bound, and then no prices and worths at
//!   the root have a greater bound; else `Moves` where some car was spent in a turn, else `Pairs` where the
//!   search for shares was spent, else `Gap`, and then no pair plan of the kept lists is cheaper.
//!
//! # How it goes
//!
//! `KeptTurns` makes the turns by `root_turns`, as a search does, and keeps their tours in a pool, which
//! holds 32 of a car: so none is dropped in 31 turns (`proofs/KeptLaws.antt`). `find_halves` asks
//! `half_plans` at the best prices; where it was spent before it found a cheap pair plan, the start plan
//! twice is one (`proofs/DoubleLaws.antt`).
#![tactic(auto)]

mod answers;
mod halves;
mod kept;
mod reasons;

pub use answers::{MOST_ROUNDS, RootAnswer, root_best};
pub use reasons::RootReason;
