//! What one more call costs, car by car: the last open call of a snapshot is the one that is asked about.
//!
//! Costs are in cost units, heights in mm. Cars and calls are named by their index.
//!
//! # What is promised
//!
//! - `without_last` gives the snapshot without its last call, `with_pin` the one with that call pinned to a
//!   car that can take it. Both are accepted.
//! - `nearest_car` gives the car with the least distance in height to the call's origin, of those that can
//!   take it; of equals, the first.
//! - `what_if` says for each car that can take the call what it costs with that car (`AreExtras`): exactly
//!   the difference of two least costs where both searches were solved, and else two ends between which it
//!   lies, from the costs and bounds that the searches answered. There is exactly one such cost, since of the
//!   feasible plans some one costs least (`proofs/LeastCosts.antt`). Where the limits are enough it is exact.
//! - It says how much more the call costs with the nearest car than with the best one, exactly or by two ends
//!   (`IsRegret`). This is one number, too.
//! - `extra_at` reads what is said of a car, and `are_settled` tells whether all of it is exact.
//!
//! An extra cost is a number with a sign: no law says that a call makes no plan cheaper.
#![tactic(auto)]

mod asking;
mod extras;
mod nearest;
mod regrets;
mod variants;
mod worked;

pub use asking::{ExtraCosts, what_if};
pub use extras::{Extra, extra_at};
pub use nearest::nearest_car;
pub use regrets::{Regret, are_settled};
pub use variants::{with_pin, without_last};
