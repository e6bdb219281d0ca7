//! A pass over the tree of a search that has ended: it states the claims of its certificate.
//!
//! A search finds worths, and states no claims. The claim that is due for a worth is the length of its kept
//! list, which a checker walks, and at least 1: no lesser one fits. `kept_tours` counts it, as a checker
//! does, so the pass takes about the time of a check.
//!
//! # What is promised
//!
//! - `state_claims` gives the tree of the search with the claims that are due, and all else as it was, where
//!   these claims sum to no more than the limit allows. A limit below the number of worths allows a claim of
//!   1 for each. Where they go beyond it, and only then, the answer is cut: the worths of each leaf are
//!   lowered evenly to what proves a lesser bound, the first of three at which the claims go no further than
//!   that (`IsLowered`); and where they do at each of them, the tree is one leaf, the last resort that was
//!   given, with the bound that it proves (`IsResort`). Either way the tree proves the bound, each claim is
//!   the one that is due, and the claims sum to no more than the limit allows (`IsClaimed`).
//!
//! The three bounds lie a 64th, a 16th and a quarter of the way down from the search's bound to that of the
//! last resort. So a cut answer counts at most four times what the limit allows.
//!
//! The leaves are shared by the workers, a few for each at a time: no more is counted than the limit leaves
//! to each of these. What is answered does not depend on the number of workers.
#![tactic(auto)]

mod counting;
mod crews;
mod leaves;
mod lowering;
mod stating;
mod tasks;

pub use counting::Counting;
pub use crews::CountingCrew;
pub use leaves::Claims;
pub use stating::{Claimed, LastResort, state_claims};
