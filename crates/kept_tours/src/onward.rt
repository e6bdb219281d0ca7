//! The moves with which a walk goes on.

ghost use Rattle.std.specs.Prelude.{◌≡◌, Some};
ghost use Rattle.call_sets.specs.Counting.{has};
ghost use Rattle.elevator_model.specs.Partial.{Course};
ghost use Rattle.partial_tours.specs.PartialTour.{course};
ghost use Rattle.search_model.specs.Extending.{IsDemand};
ghost use Rattle.kept_tours.specs.Walking.{AreFollowersLeft};

use partial_tours::{Followers, Prefix};
use tour_extension::{Demand, useful};

/// The moves that may follow, but for all leaves where these are left out, and else but for the useless ones.
pub fn followers_left(prefix: &Prefix, demand: &Demand, no_leaves: bool) -> Followers
    requires { IsDemand prefix.now.snapshot prefix.now.car (has demand.now.allowed)
        (has demand.now.required) }
    ensures { (x : Course) → course prefix.now ≡ Some x
        → AreFollowersLeft demand.now no_leaves prefix.now x result }
{
    let followers = prefix.followers(demand.allowed);
    if no_leaves {
        followers.without_leaves(followers.leaves())
    } else {
        useful(prefix, demand, followers)
    }
}
