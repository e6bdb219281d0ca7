//! Who gets off at a stop, and what they cost.

ghost use Rattle.std.specs.Prelude.{◌≡◌, ℕ, ◌+◌, ◌≤◌, ◌<◌, Some, true, length};
ghost use Rattle.call_sets.specs.Counting.{has, sum_where};
ghost use Rattle.elevator_model.specs.Building.{floor_count};
ghost use Rattle.elevator_model.specs.Partial.{Course};
ghost use Rattle.elevator_model.specs.Snapshot.{call_count, call_of, group_of};
ghost use Rattle.elevator_model.specs.Tours.{Progress, gets_off, persons_where};
ghost use Rattle.partial_tours.specs.Courses.{reached};
ghost use Rattle.partial_tours.specs.PartialTour.{course};
ghost use Rattle.tour_rules.specs.Leaving.{is_group_off, leaving_cost};
ghost use Rattle.tour_rules.specs.Leaving.{cost_of_call as cost_of_call_lem};
ghost use Rattle.tour_rules.specs.Leaving.{cost_of_group as cost_of_group_lem};
ghost use Rattle.route_sums.specs.Stands.{IsStand, StandsFor, boarding_moment, is_known};

use crate::halting::boarded_at;
use crate::stands::{Newest, Stand};
use call_sets::{CallSet, FloorSet};
use call_state::Snapshot;
use car_layout::Layout;
use elevator_model::{MOMENT_LIMIT, MOST_GROUPS_COST};
use partial_tours::{
    Leaving, MOST_CALLERS_COST, MOST_CALLERS_LEAVING, MOST_LEAVING, MOST_LEAVING_COST, Prefix,
};
use tour_rules::riding;

/// The calls of a set that get off where the doors are open at this moment.
fn calls_leaving(
    snapshot: &Snapshot,
    prefix: &Prefix,
    newest: Option<Newest>,
    calls: CallSet,
    opened: u64,
) -> Leaving
    requires same { snapshot.now ≡ prefix.now.snapshot }
    requires within { (j : ℕ) → has calls j ≡ true → j < call_count snapshot.now }
    requires known { (x : Course) × (course prefix.now ≡ Some x) × ((j : ℕ) → has calls j ≡ true
        → is_known newest (reached prefix.now.snapshot prefix.now.car x) j ≡ true) }
    requires early { opened ≤ MOMENT_LIMIT }
    ensures persons { result.persons ≡ sum_where (call_count snapshot.now) (has calls)
        (λ j. (call_of snapshot.now j).persons) }
    ensures cost { (x : Course) → course prefix.now ≡ Some x → result.cost
        ≡ sum_where (call_count snapshot.now) (has calls)
        (λ j. cost_of_call_lem snapshot.now j
        (boarding_moment newest (reached prefix.now.snapshot prefix.now.car x) j) opened) }
    ensures few { result.persons ≤ MOST_CALLERS_LEAVING }
    ensures small { result.cost ≤ MOST_CALLERS_COST }
{
    let building = snapshot.building();
    let all = snapshot.calls();
    let mut leaving = Leaving {
        persons: 0,
        cost: 0,
    };
    for j in calls.iter() {
        let call = &all[j as usize];
        let boarded = boarded_at(prefix, newest, j);
        leaving.persons += call.persons as u64;
        leaving.cost += riding::cost_of_call(building, call, boarded, opened);
    }
    leaving
}

/// The groups that get off where the car stops at this floor and its doors are open at this moment; where
/// that is earlier than it can be, they may cost less. `visited` has the floors where it stopped before.
fn groups_leaving(layout: &Layout, visited: FloorSet, floor: u32, opened: u64) -> Leaving
    requires floor { floor < 64 }
    requires early { opened ≤ MOMENT_LIMIT }
    ensures persons { result.persons ≡ sum_where (length layout.now.snapshot.aboard)
        (is_group_off layout.now.snapshot layout.now.car visited floor)
        (λ k. (group_of layout.now.snapshot k).persons) }
    ensures cost { result.cost ≤ sum_where (length layout.now.snapshot.aboard)
        (is_group_off layout.now.snapshot layout.now.car visited floor)
        (λ k. cost_of_group_lem layout.now.snapshot k opened) }
    ensures few { result.persons ≤ 64 }
    ensures small { result.cost ≤ MOST_GROUPS_COST }
{
    if visited.contains(floor) {
        return Leaving {
            persons: 0,
            cost: 0,
        };
    }
    let travel_weight = layout.snapshot().building().travel_weight();
    let persons = layout.persons_to(floor) as u64;
    let ridden = (persons * opened).saturating_sub(layout.moments_to(floor));
    Leaving {
        persons,
        cost: travel_weight * ridden,
    }
}

/// Those who get off at a next stop at this floor, whose doors are open at this moment or later.
pub(crate) fn leaving_at(
    prefix: &Prefix,
    newest: Option<Newest>,
    stand: &Stand,
    floor: u32,
    opened: u64,
) -> Leaving
    requires floor { floor < floor_count prefix.now.snapshot.building }
    requires early { opened ≤ MOMENT_LIMIT }
    requires stands { (p : Progress) × StandsFor prefix.now newest stand.now p }
    ensures persons { (x : Course) (p : Progress) → course prefix.now ≡ Some x
        → IsStand prefix.now.snapshot prefix.now.car newest
        (reached prefix.now.snapshot prefix.now.car x) stand.now p
        → result.persons ≡ persons_where prefix.now.snapshot (gets_off prefix.now.snapshot p floor) }
    ensures cost { (x : Course) (p : Progress) (m : ℕ) → course prefix.now ≡ Some x
        → IsStand prefix.now.snapshot prefix.now.car newest
        (reached prefix.now.snapshot prefix.now.car x) stand.now p
        → opened ≤ m → result.cost ≤ leaving_cost prefix.now.snapshot p floor m }
    ensures few { result.persons ≤ MOST_LEAVING }
    ensures small { result.cost ≤ MOST_LEAVING_COST }
{
    let layout = prefix.layout();
    let snapshot = layout.snapshot();
    let off = stand.place.carried.intersection(layout.ending(floor));
    let calls = calls_leaving(snapshot, prefix, newest, off, opened);
    let groups = groups_leaving(layout, stand.place.visited, floor, opened);
    Leaving {
        persons: calls.persons + groups.persons,
        cost: calls.cost + groups.cost,
    }
}
