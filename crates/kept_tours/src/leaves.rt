//! Whole leaves and their sums.

ghost use Rattle.std.specs.Prelude.{◌≡◌, ◌≤◌, All, IsTrue, length};
ghost use Rattle.search_model.specs.Certificates.{has_whole_lists, sum_of_leaf as sum_of_leaf_lem};
ghost use Rattle.kept_tours.specs.Leaves.{HasWorthSize};

use crate::entries::{are_each_once, sum_of_prices, sum_of_worths};
use call_state::Snapshot;
use elevator_model::{MOST_CALLS, MOST_CARS};
use search_model::Leaf;

/// Whether the leaf states one price for each call and one worth for each car.
pub fn is_whole(snapshot: &Snapshot, leaf: &Leaf) -> bool
    ensures whole { result ≡ has_whole_lists snapshot.now leaf.now }
    ensures few { IsTrue result
        → (length leaf.now.prices ≤ MOST_CALLS) × (length leaf.now.worths ≤ MOST_CARS) }
{
    are_each_once(leaf.prices.as_slice(), snapshot.calls().len())
        && are_each_once(leaf.worths.as_slice(), snapshot.building().cars().len())
}

/// The prices and worths of a leaf, added up, in thousandths of a cost unit.
///
/// At most 128 prices and 16 worths, which are of absolute value at most 10^27.
pub fn sum_of_leaf(leaf: &Leaf) -> i128
    requires prices { length leaf.now.prices ≤ MOST_CALLS }
    requires worths { length leaf.now.worths ≤ MOST_CARS }
    requires sizes { All HasWorthSize leaf.now.worths }
    ensures { result ≡ sum_of_leaf_lem leaf.now }
{
    sum_of_prices(leaf.prices.as_slice()) + sum_of_worths(leaf.worths.as_slice())
}
