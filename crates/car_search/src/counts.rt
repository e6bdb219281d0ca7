//! How often calls are taken.

ghost use Rattle.std.specs.Prelude.{◌≡◌, ◌↔◌, ℕ, ◌+◌, IsTrue, true, false};
ghost use Rattle.call_sets.specs.Counting.{has};
ghost use Rattle.car_search.specs.Counts.{AreWhole, HasRoom, times_in_set};

use call_sets::CallSet;

/// Calls, each taken a number of times: by one candidate, or by all that were picked so far.
pub trait CallCounts: Copy {
    /// How often each call has to be taken.
    ghost whole: { ℕ };

    /// How often a call is taken.
    ghost times: { Self → ℕ → ℕ };

    /// No call.
    fn none() -> Self
        ensures { (j : ℕ) → times result j ≡ 0 };

    /// Whether no call is taken too often with these more.
    fn has_room(&self, more: &Self) -> bool
        ensures { IsTrue result ↔ HasRoom whole (times self.now) (times more.now) };

    /// The calls of both.
    fn with(&self, more: &Self) -> Self
        requires { HasRoom whole (times self.now) (times more.now) }
        ensures { (j : ℕ) → times result j ≡ times self.now j + times more.now j };

    /// Whether each of these calls is taken as often as it has to be.
    fn are_whole(&self, calls: CallSet) -> bool
        ensures { IsTrue result ↔ AreWhole whole (has calls) (times self.now) };

    /// The calls that are taken at least once.
    fn calls(&self) -> CallSet
        ensures { (j : ℕ) → has result j ≡ false → times self.now j ≡ 0 };
}

/// Each call is taken once.
impl CallCounts for CallSet {
    ghost whole = { 1 };

    ghost times = { times_in_set };

    fn none() -> Self {
        CallSet::empty()
    }

    fn has_room(&self, more: &Self) -> bool {
        are_apart(*self, *more)
    }

    fn with(&self, more: &Self) -> Self {
        self.union(*more)
    }

    fn are_whole(&self, calls: CallSet) -> bool {
        self.contains_all(calls)
    }

    fn calls(&self) -> CallSet {
        *self
    }
}

/// Whether no call is in both sets.
pub fn are_apart(left: CallSet, right: CallSet) -> bool
    ensures { IsTrue result ↔ ((k : ℕ) → has left k ≡ true → has right k ≡ false) }
{
    left.intersection(right).least().is_none()
}
