//! Who gets off at a stop, and what they cost.

ghost use Rattle.std.specs.Prelude.{◌≡◌, ℕ, ◌+◌, ◌≤◌, ◌<◌, true, length, slice_index};
ghost use Rattle.call_sets.specs.Counting.{has, sum_where};
ghost use Rattle.elevator_model.specs.Snapshot.{call_count, call_of, group_of, spec_of};
ghost use Rattle.elevator_model.specs.Tours.{Progress, persons_where, gets_off};
ghost use Rattle.tour_rules.specs.Places.{Tracks};
ghost use Rattle.tour_rules.specs.Leaving.{IsKept, AreBoarded, is_group_off, leaving_cost};
ghost use Rattle.tour_rules.specs.Leaving.{cost_of_call as cost_of_call_lem};
ghost use Rattle.tour_rules.specs.Leaving.{cost_of_group as cost_of_group_lem};

use call_sets::{CallSet, FloorSet};
use call_state::Snapshot;
use car_layout::Layout;
use elevator_model::{MOMENT_LIMIT, MOST_GROUPS_COST};
use tour_rules::places::CarPlace;
use tour_rules::riding;

/// The most persons of calls who get off at a stop: 128 calls of 8.
pub const MOST_CALLERS_LEAVING: u64 = 1_024;

/// They cost at most this, in cost units: 128 times `MOST_CALL_COST` is less.
pub const MOST_CALLERS_COST: u64 = 310_000_000_000_000_000;

/// The most persons who get off at a stop: those of calls, and 64 who were aboard.
pub const MOST_LEAVING: u64 = 1_088;

/// They cost at most this, in cost units: `MOST_CALLERS_COST` and `MOST_GROUPS_COST` are less.
pub const MOST_LEAVING_COST: u64 = 400_000_000_000_000_000;

/// Those who get off at a stop: how many persons, and what they cost, in cost units.
#[derive(Clone, Copy)]
pub struct Leaving {
    pub persons: u64,
    pub cost: u64,
}

/// The calls of a set that get off where the doors are open at this moment. `moments` has those at which
/// they boarded.
fn calls_leaving(snapshot: &Snapshot, calls: CallSet, opened: u64, moments: &[u64]) -> Leaving
    requires within { (j : ℕ) → has calls j ≡ true → j < call_count snapshot.now }
    requires counted { length moments.now ≡ 128 }
    requires low { (j : ℕ) → slice_index moments.now j ≤ MOMENT_LIMIT }
    requires early { opened ≤ MOMENT_LIMIT }
    ensures persons { result.persons
        ≡ sum_where (call_count snapshot.now) (has calls) (λ j. (call_of snapshot.now j).persons) }
    ensures cost { result.cost ≡ sum_where (call_count snapshot.now) (has calls)
        (λ j. cost_of_call_lem snapshot.now j (slice_index moments.now j) opened) }
    ensures few { result.persons ≤ MOST_CALLERS_LEAVING }
    ensures small { result.cost ≤ MOST_CALLERS_COST }
{
    let building = snapshot.building();
    let all = snapshot.calls();
    let mut leaving = Leaving {
        persons: 0,
        cost: 0,
    };
    for j in calls.iter() {
        let call = &all[j as usize];
        leaving.persons += call.persons as u64;
        leaving.cost += riding::cost_of_call(building, call, moments[j as usize], opened);
    }
    leaving
}

/// The groups that get off where the car stops at this floor and its doors are open at this moment. `visited`
/// has the floors where it stopped before.
fn groups_leaving(layout: &Layout, visited: FloorSet, floor: u32, opened: u64) -> Leaving
    requires floor { floor < 64 }
    requires early { opened ≤ MOMENT_LIMIT }
    requires late { layout.now.snapshot.moment + (spec_of layout.now.snapshot layout.now.car).opening
        ≤ opened }
    ensures persons { result.persons ≡ sum_where (length layout.now.snapshot.aboard)
        (is_group_off layout.now.snapshot layout.now.car visited floor)
        (λ k. (group_of layout.now.snapshot k).persons) }
    ensures cost { result.cost ≡ sum_where (length layout.now.snapshot.aboard)
        (is_group_off layout.now.snapshot layout.now.car visited floor)
        (λ k. cost_of_group_lem layout.now.snapshot k opened) }
    ensures few { result.persons ≤ 64 }
    ensures small { result.cost ≤ MOST_GROUPS_COST }
{
    if visited.contains(floor) {
        return Leaving {
            persons: 0,
            cost: 0,
        };
    }
    let travel_weight = layout.snapshot().building().travel_weight();
    let persons = layout.persons_to(floor) as u64;
    let ridden = persons * opened - layout.moments_to(floor);
    Leaving {
        persons,
        cost: travel_weight * ridden,
    }
}

/// Those who get off at a next stop at this floor, whose doors are open at this moment. `moments` has those
/// at which the calls boarded.
pub(crate) fn leaving_at(
    layout: &Layout,
    place: &CarPlace,
    floor: u32,
    opened: u64,
    moments: &[u64],
) -> Leaving
    requires floor { floor < 64 }
    requires early { opened ≤ MOMENT_LIMIT }
    requires late { layout.now.snapshot.moment + (spec_of layout.now.snapshot layout.now.car).opening
        ≤ opened }
    requires counted { length moments.now ≡ 128 }
    requires low { (j : ℕ) → slice_index moments.now j ≤ MOMENT_LIMIT }
    ensures persons { (p : Progress) → Tracks layout.now.snapshot layout.now.car place.now p
        → result.persons ≡ persons_where layout.now.snapshot (gets_off layout.now.snapshot p floor) }
    ensures cost { (p : Progress) → Tracks layout.now.snapshot layout.now.car place.now p
        → IsKept layout.now.snapshot layout.now.car p → AreBoarded layout.now.snapshot p moments.now
        → result.cost ≡ leaving_cost layout.now.snapshot p floor opened }
    ensures few { result.persons ≤ MOST_LEAVING }
    ensures small { result.cost ≤ MOST_LEAVING_COST }
{
    let off = place.carried.intersection(layout.ending(floor));
    let calls = calls_leaving(layout.snapshot(), off, opened, moments);
    let groups = groups_leaving(layout, place.visited, floor, opened);
    Leaving {
        persons: calls.persons + groups.persons,
        cost: calls.cost + groups.cost,
    }
}
