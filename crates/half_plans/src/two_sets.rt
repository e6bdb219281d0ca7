//! Calls that are taken at most twice.

ghost use Rattle.std.specs.Prelude.{◌≡◌, ℕ, ◌&&◌, ◌||◌};
ghost use Rattle.call_sets.specs.Counting.{has};
ghost use Rattle.half_plans.specs.Choosing.{times_of};

use call_sets::CallSet;
use car_search::{CallCounts, are_apart};

/// Calls that are taken once or twice: a call of both sets is taken twice.
#[derive(Clone, Copy)]
pub(crate) struct TwoSets {
    pub(crate) first: CallSet,
    pub(crate) second: CallSet,
}

impl TwoSets {
    /// The calls that are taken once or twice.
    fn either(&self) -> CallSet
        ensures { (k : ℕ) → has result k ≡ (has self.now.first k || has self.now.second k) }
    {
        self.first.union(self.second)
    }

    /// The calls that are taken twice.
    fn both(&self) -> CallSet
        ensures { (k : ℕ) → has result k ≡ (has self.now.first k && has self.now.second k) }
    {
        self.first.intersection(self.second)
    }
}

/// Each call is taken twice.
impl CallCounts for TwoSets {
    ghost whole = { 2 };

    ghost times = { times_of };

    fn none() -> Self {
        TwoSets {
            first: CallSet::empty(),
            second: CallSet::empty(),
        }
    }

    fn has_room(&self, more: &Self) -> bool {
        are_apart(more.both(), self.either()) && are_apart(more.either(), self.both())
    }

    fn with(&self, more: &Self) -> Self {
        let either = more.either();
        let again = either.intersection(self.either());
        TwoSets {
            first: self.either().union(either),
            second: self.both().union(again).union(more.both()),
        }
    }

    fn are_whole(&self, calls: CallSet) -> bool {
        self.both().contains_all(calls)
    }

    fn calls(&self) -> CallSet {
        self.either()
    }
}
