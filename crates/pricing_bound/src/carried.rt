//! What those carried would cost, if the car stood at a floor and went straight to each destination from
//! there, in cost units.

ghost use Rattle.std.specs.Prelude.{◌≡◌, ℕ, ◌+◌, ◌<◌, ◌≤◌, Some, true};
ghost use Rattle.call_sets.specs.Counting.{has, sum_where};
ghost use Rattle.elevator_model.specs.Building.{floor_count};
ghost use Rattle.elevator_model.specs.Partial.{Course};
ghost use Rattle.elevator_model.specs.Snapshot.{IsAccepted, call_count, car_count, spec_of};
ghost use Rattle.partial_tours.specs.Courses.{reached};
ghost use Rattle.partial_tours.specs.PartialTour.{course};
ghost use Rattle.search_model.specs.Bounds.{cost_if_straight};
ghost use Rattle.pricing_bound.specs.Running.{cost_of_call_rides, cost_of_group_rides, cost_of_rides};
ghost use Rattle.pricing_bound.specs.Running.{ridden_to as ridden_to_lem, standing_at};

use crate::rates::Rates;
use crate::rides::arrival_from;
use call_sets::{CallSet, FloorSet};
use call_state::Snapshot;
use elevator_model::{LATEST_MOMENT, MOST_CALL_COST};
use partial_tours::Prefix;

/// What a call that boarded would cost, by its rate.
fn cost_at_rate(rates: &Rates, prefix: &Prefix, floor: u32, opened: u64, call: u32) -> u64
    requires same { rates.now.snapshot ≡ prefix.now.snapshot }
    requires floor { floor < floor_count rates.now.snapshot.building }
    requires early { opened < LATEST_MOMENT }
    requires call { call < call_count rates.now.snapshot }
    requires boarded { (x : Course) × (course prefix.now ≡ Some x)
        × ((reached prefix.now.snapshot prefix.now.car x).boarded call ≡ true) }
    ensures cost { (x : Course) → course prefix.now ≡ Some x → result
        ≡ cost_if_straight prefix.now.snapshot
        (standing_at (reached prefix.now.snapshot prefix.now.car x) floor opened) call }
    ensures bounded { result ≤ MOST_CALL_COST }
{
    rates.cost_from(call, prefix.boarded_at(call), floor, opened)
}

/// What calls that boarded would cost.
fn cost_of_calls(rates: &Rates, prefix: &Prefix, floor: u32, opened: u64, calls: CallSet) -> u64
    requires same { rates.now.snapshot ≡ prefix.now.snapshot }
    requires accepted { IsAccepted rates.now.snapshot }
    requires floor { floor < floor_count rates.now.snapshot.building }
    requires early { opened < LATEST_MOMENT }
    requires within { (j : ℕ) → has calls j ≡ true → j < call_count rates.now.snapshot }
    requires boarded { (x : Course) × (course prefix.now ≡ Some x)
        × ((j : ℕ) → has calls j ≡ true
        → (reached prefix.now.snapshot prefix.now.car x).boarded j ≡ true) }
    ensures cost { (x : Course) → course prefix.now ≡ Some x → result
        ≡ cost_of_call_rides prefix.now.snapshot
        (standing_at (reached prefix.now.snapshot prefix.now.car x) floor opened) calls }
    ensures small { result ≤ 310000000000000000 }
{
    let mut cost = 0;
    for call in calls.iter() {
        cost += cost_at_rate(rates, prefix, floor, opened, call);
    }
    cost
}

/// The ms that the persons aboard the car who go to a floor would have ridden when they got there.
fn ridden_to(snapshot: &Snapshot, prefix: &Prefix, floor: u32, opened: u64, to: u32) -> u64
    requires same { snapshot.now ≡ prefix.now.snapshot }
    requires accepted { IsAccepted snapshot.now }
    requires car { prefix.now.car < car_count snapshot.now }
    requires floor { floor < floor_count snapshot.now.building }
    requires early { opened < LATEST_MOMENT }
    requires late { snapshot.now.moment + (spec_of snapshot.now prefix.now.car).opening ≤ opened }
    requires to { to < floor_count snapshot.now.building }
    ensures ridden { (x : Course) → course prefix.now ≡ Some x → result
        ≡ ridden_to_lem prefix.now.snapshot prefix.now.car
        (standing_at (reached prefix.now.snapshot prefix.now.car x) floor opened) to }
    ensures small { result ≤ 6400000000000 }
{
    let layout = prefix.layout();
    layout.persons_to(to) as u64 * arrival_from(snapshot, floor, opened, to) - layout.moments_to(to)
}

/// The ms that the persons aboard the car who go to floors of a set would have ridden.
fn ridden_to_all(
    snapshot: &Snapshot,
    prefix: &Prefix,
    floor: u32,
    opened: u64,
    floors: FloorSet,
) -> u64
    requires same { snapshot.now ≡ prefix.now.snapshot }
    requires accepted { IsAccepted snapshot.now }
    requires car { prefix.now.car < car_count snapshot.now }
    requires floor { floor < floor_count snapshot.now.building }
    requires early { opened < LATEST_MOMENT }
    requires late { snapshot.now.moment + (spec_of snapshot.now prefix.now.car).opening ≤ opened }
    requires within { (g : ℕ) → has floors g ≡ true → g < floor_count snapshot.now.building }
    ensures ridden { (x : Course) → course prefix.now ≡ Some x → result
        ≡ sum_where (floor_count prefix.now.snapshot.building) (has floors)
        (ridden_to_lem prefix.now.snapshot prefix.now.car
        (standing_at (reached prefix.now.snapshot prefix.now.car x) floor opened)) }
    ensures small { result ≤ 409600000000000 }
{
    let mut ridden = 0;
    for to in floors.iter() {
        ridden += ridden_to(snapshot, prefix, floor, opened, to);
    }
    ridden
}

/// What the groups aboard the car would cost that have not got off. No list of groups is read.
fn cost_of_groups(snapshot: &Snapshot, prefix: &Prefix, floor: u32, opened: u64) -> u64
    requires same { snapshot.now ≡ prefix.now.snapshot }
    requires accepted { IsAccepted snapshot.now }
    requires car { prefix.now.car < car_count snapshot.now }
    requires floor { floor < floor_count snapshot.now.building }
    requires early { opened < LATEST_MOMENT }
    requires late { snapshot.now.moment + (spec_of snapshot.now prefix.now.car).opening ≤ opened }
    ensures cost { (x : Course) → course prefix.now ≡ Some x → result
        ≡ cost_of_group_rides prefix.now.snapshot
        (standing_at (reached prefix.now.snapshot prefix.now.car x) floor opened) }
    ensures small { result ≤ 409600000000000000 }
{
    let visited = prefix.point().place.visited;
    let floors = prefix.layout().destinations().minus(visited);
    snapshot.building().travel_weight() * ridden_to_all(snapshot, prefix, floor, opened, floors)
}

/// What all those carried would cost, if the car stood at this floor with its doors open at the moment
/// `opened`, in ms, and went straight to each destination from there.
pub(crate) fn cost_of_carried(rates: &Rates, prefix: &Prefix, floor: u32, opened: u64) -> u64
    requires same { rates.now.snapshot ≡ prefix.now.snapshot }
    requires car { prefix.now.car < car_count rates.now.snapshot }
    requires leads { (x : Course) × (course prefix.now ≡ Some x) }
    requires floor { floor < floor_count rates.now.snapshot.building }
    requires early { opened < LATEST_MOMENT }
    requires late { rates.now.snapshot.moment + (spec_of rates.now.snapshot prefix.now.car).opening
        ≤ opened }
    ensures cost { (x : Course) → course prefix.now ≡ Some x → result
        ≡ cost_of_rides prefix.now.snapshot
        (standing_at (reached prefix.now.snapshot prefix.now.car x) floor opened) }
    ensures small { result ≤ 730000000000000000 }
{
    // The reader says that the snapshot is accepted.
    let snapshot = rates.snapshot();
    let calls = prefix.carried().intersection(rates.calls());
    cost_of_calls(rates, prefix, floor, opened, calls)
        + cost_of_groups(snapshot, prefix, floor, opened)
}
