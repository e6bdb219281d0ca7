//! Which way the calls of a snapshot go, and below which floors they begin, laid out as sets.

ghost use Rattle.std.specs.Prelude.{◌≡◌, ℕ, ◌<◌, ◌≤◌, ◌==◌, ◌&&◌, ◌||◌, IfOk, length, nat_le, nat_lt};
ghost use Rattle.std.specs.Prelude.{not, slice_index_or, true};
ghost use Rattle.call_sets.specs.Counting.{has};
ghost use Rattle.elevator_model.specs.Snapshot.{call_count, call_of, no_call};
ghost use Rattle.elevator_model.specs.Tours.{is_upward as is_upward_lem, same_direction};
ghost use Rattle.route_sums.specs.Origins.{AreBelowFloors, goes_up};

use crate::parts::RouteSums;
use call_sets::CallSet;
use call_state::{Call, Snapshot};
use elevator_model::MOST_CALLS;
use std::alloc::{AllocError, Global};

/// The set, and the call in it where it passes.
pub(crate) fn with_if(set: CallSet, call: u32, passes: bool) -> CallSet
    requires { call < 128 }
    ensures { (j : ℕ) → has result j ≡ (has set j || ((j == call) && passes)) }
{
    if passes { set.with(call) } else { set }
}

/// The calls that go up.
fn going_up(calls: &[Call]) -> CallSet
    requires { length calls.now ≤ MOST_CALLS }
    ensures { (j : ℕ) → has result j ≡ (nat_lt j (length calls.now)
        && is_upward_lem (slice_index_or calls.now j no_call)) }
{
    let mut set = CallSet::empty();
    for (j, call) in calls.iter().enumerate() {
        set = with_if(set, j as u32, call.is_upward());
    }
    set
}

/// The calls of a snapshot that go up.
pub(crate) fn upward_calls(snapshot: &Snapshot) -> CallSet
    ensures { (j : ℕ) → has result j ≡ goes_up snapshot.now j }
{
    going_up(snapshot.calls())
}

/// The calls that begin below a floor.
fn calls_below(calls: &[Call], floor: u32) -> CallSet
    requires { length calls.now ≤ MOST_CALLS }
    ensures { (j : ℕ) → has result j ≡ (nat_lt j (length calls.now)
        && nat_lt (slice_index_or calls.now j no_call).origin floor) }
{
    let mut set = CallSet::empty();
    for (j, call) in calls.iter().enumerate() {
        set = with_if(set, j as u32, call.origin < floor);
    }
    set
}

/// For each floor up to one above the highest the calls that begin below it.
pub(crate) fn below_table(alloc: Global, snapshot: &Snapshot) -> Result<Vec<CallSet>, AllocError>
    ensures { IfOk result (λ sets. AreBelowFloors snapshot.now 65 sets.items) }
{
    let calls = snapshot.calls();
    let mut sets = Vec::new(alloc);
    for floor in 0..65 {
        sets.push(calls_below(calls, floor))?;
    }
    Ok(sets)
}

impl<'a, 'r, 'p> RouteSums<'a, 'r, 'p> {
    /// Those of the calls that go this way.
    pub(crate) fn going(&self, upward: bool, calls: CallSet) -> CallSet
        requires within { (j : ℕ) → has calls j ≡ true → j < call_count self.now.snapshot.now }
        ensures { (j : ℕ) → has result j ≡ (has calls j
            && same_direction upward (is_upward_lem (call_of self.now.snapshot.now j))) }
    {
        let up = self.rates.upward();
        if upward {
            calls.intersection(up)
        } else {
            calls.minus(up)
        }
    }

    /// Those of the calls that begin at a floor or above it, and below another.
    pub(crate) fn between(&self, low: u32, high: u32, calls: CallSet) -> CallSet
        requires low { low ≤ 64 }
        requires high { high ≤ 64 }
        requires within { (j : ℕ) → has calls j ≡ true → j < call_count self.now.snapshot.now }
        ensures { (j : ℕ) → has result j ≡ (has calls j
            && (nat_le low (call_of self.now.snapshot.now j).origin
            && nat_lt (call_of self.now.snapshot.now j).origin high)) }
    {
        let below_high = self.rates.below(high);
        let below_low = self.rates.below(low);
        calls.intersection(below_high).minus(below_low)
    }

    /// Those of the calls that begin elsewhere, or have an index above the last one.
    pub(crate) fn not_passed(&self, floor: u32, last: u32, calls: CallSet) -> CallSet
        requires floor { floor < 64 }
        requires within { (j : ℕ) → has calls j ≡ true → j < call_count self.now.snapshot.now }
        ensures { (j : ℕ) → has result j ≡ (has calls j
            && (not ((call_of self.now.snapshot.now j).origin == floor) || nat_lt last j)) }
    {
        let here = self.between(floor, floor + 1, calls);
        calls.minus(here).union(here.above(last))
    }
}
