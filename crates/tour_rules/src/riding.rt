//! When a car arrives at a stop and leaves it, and what those who get off there cost.
//!
//! Moments are in ms. A cost is in cost units: each person's ms of waiting and of riding counts with the
//! building's weights, and a wait past the patience counts once more.

ghost use Rattle.std.specs.Prelude.{◌≡◌, ℕ, ◌+◌, ◌*◌, ◌≤◌, ◌<◌, ◌==◌, ◌&&◌, not, length, slice_index};
ghost use Rattle.call_sets.specs.Counting.{has, sum_where};
ghost use Rattle.elevator_model.specs.Building.{IsBuilding, floor_count};
ghost use Rattle.elevator_model.specs.Snapshot.{IsAccepted, car_count, call_count, spec_of};
ghost use Rattle.elevator_model.specs.Tours.{Progress, arrival as arrival_lem};
ghost use Rattle.tour_rules.specs.Leaving.{AreCarried, IsKept, AreBoarded, is_call_off, is_group_off};
ghost use Rattle.tour_rules.specs.Leaving.{leaving_cost, call_cost, cost_of_call as cost_of_call_lem};
ghost use Rattle.tour_rules.specs.Leaving.{group_cost, cost_of_group as cost_of_group_lem};

use crate::places::is_carried;
use call_sets::{CallSet, FloorSet};
use call_state::{Aboard, Building, Call, CarState, Snapshot};
use elevator_model::{MOMENT_LIMIT, MOST_CALL_COST, MOST_GROUPS_COST};

/// The moment at which a car that leaves the floor `from` at the moment `leaves` arrives at a next stop at
/// the floor `to`. `begun` says whether it has made a stop: before that a coming car arrives at `leaves`.
pub fn arrival(snapshot: &Snapshot, car: u32, begun: bool, from: u32, leaves: u64, to: u32) -> u64
    requires car { car < car_count snapshot.now }
    requires from { from < floor_count snapshot.now.building }
    requires to { to < floor_count snapshot.now.building }
    requires early { leaves ≤ MOMENT_LIMIT }
    ensures value { (p : Progress) → begun ≡ p.begun → from ≡ p.floor → leaves ≡ p.leaves
        → result ≡ arrival_lem snapshot.now car p to }
    ensures late { result ≤ leaves + 20000000 }
{
    if begun || !snapshot.car(car).is_coming() {
        leaves + snapshot.building().travel().time(from, to)
    } else {
        leaves
    }
}

/// The time from an arrival to open doors, in ms.
pub fn opening_of(snapshot: &Snapshot, car: u32) -> u64
    requires { car < car_count snapshot.now }
    ensures value { result ≡ (spec_of snapshot.now car).opening }
    ensures short { result ≤ 60000 }
    ensures accepted { IsAccepted snapshot.now }
{
    snapshot.spec(car).opening
}

/// How long the doors stay open and take to close, in ms, where this many persons get off and on.
pub fn dwell_of(snapshot: &Snapshot, car: u32, off: u64, on: u64) -> u64
    requires car { car < car_count snapshot.now }
    requires off { off ≤ 1088 }
    requires on { on ≤ 1024 }
    ensures value { result ≡ (spec_of snapshot.now car).alighting * off +
        (spec_of snapshot.now car).boarding * on + (spec_of snapshot.now car).closing }
    ensures short { result ≤ 129000000 }
{
    let spec = snapshot.spec(car);
    spec.alighting * off + spec.boarding * on + spec.closing
}

/// Whether a group of the car, not yet delivered, gets off at this floor. `visited` has the floors where
/// the car has stopped.
pub fn is_off(group: &Aboard, car: u32, visited: FloorSet, floor: u32) -> bool
    requires { group.now.destination < 64 }
    ensures { result ≡ (((group.now.car == car) && not (has visited group.now.destination)) &&
        (group.now.destination == floor)) }
{
    is_carried(group, car, visited) && group.destination == floor
}

/// The cost of those who get off at a next stop at this floor, whose doors are open at the moment `opened`.
///
/// The car carries the calls of a set, and those of its groups aboard at whose destinations it has not
/// stopped yet. `moments` has the moments at which the calls that are carried boarded.
pub fn cost_of_leaving(
    snapshot: &Snapshot,
    car: u32,
    carried: CallSet,
    visited: FloorSet,
    floor: u32,
    opened: u64,
    moments: &[u64],
) -> u64
    requires car { car < car_count snapshot.now }
    requires counted { call_count snapshot.now ≤ length moments.now }
    requires boarded { (j : ℕ) → j < call_count snapshot.now
        → slice_index moments.now j ≤ MOMENT_LIMIT }
    requires early { opened ≤ MOMENT_LIMIT }
    ensures cost { (p : Progress) → AreCarried snapshot.now car carried visited p
        → IsKept snapshot.now car p → AreBoarded snapshot.now p moments.now
        → result ≡ leaving_cost snapshot.now p floor opened }
    ensures bounded { result ≤ 400000000000000000 }
{
    cost_of_calls_off(snapshot, carried, floor, opened, moments)
        + cost_of_groups_off(snapshot, car, visited, floor, opened)
}

/// The cost of the calls of a set that get off at this floor.
fn cost_of_calls_off(
    snapshot: &Snapshot,
    carried: CallSet,
    floor: u32,
    delivered: u64,
    moments: &[u64],
) -> u64
    requires counted { call_count snapshot.now ≤ length moments.now }
    requires boarded { (j : ℕ) → j < call_count snapshot.now
        → slice_index moments.now j ≤ MOMENT_LIMIT }
    requires delivered { delivered ≤ MOMENT_LIMIT }
    ensures cost { result ≡ sum_where (call_count snapshot.now)
        (is_call_off snapshot.now carried floor)
        (λ j. cost_of_call_lem snapshot.now j (slice_index moments.now j) delivered) }
    ensures bounded { result ≤ 310000000000000000 }
{
    let mut cost = 0;
    let building = snapshot.building();
    let calls = snapshot.calls();
    for j in 0..calls.len() {
        if carried.contains(j as u32) && calls[j].destination == floor {
            cost += cost_of_call(building, &calls[j], moments[j], delivered);
        }
    }
    cost
}

/// The cost of the groups aboard that get off at this floor.
fn cost_of_groups_off(
    snapshot: &Snapshot,
    car: u32,
    visited: FloorSet,
    floor: u32,
    delivered: u64,
) -> u64
    requires car { car < car_count snapshot.now }
    requires delivered { delivered ≤ MOMENT_LIMIT }
    ensures cost { result ≡ sum_where (length snapshot.now.aboard)
        (is_group_off snapshot.now car visited floor)
        (λ k. cost_of_group_lem snapshot.now k delivered) }
    ensures bounded { result ≤ MOST_GROUPS_COST }
{
    let mut cost = 0;
    let building = snapshot.building();
    let groups = snapshot.aboard();
    for k in 0..groups.len() {
        if is_off(&groups[k], car, visited, floor) {
            cost += cost_of_group(building, &groups[k], delivered);
        }
    }
    cost
}

/// The cost in cost units of a call that boards and gets off at these moments, in ms.
pub fn cost_of_call(building: &Building, call: &Call, boarded: u64, delivered: u64) -> u64
    requires persons { call.now.persons ≤ 8 }
    requires boarded { boarded ≤ MOMENT_LIMIT }
    requires delivered { delivered ≤ MOMENT_LIMIT }
    ensures cost { result ≡ call_cost building.now call.now boarded delivered }
    ensures bounded { result ≤ MOST_CALL_COST }
{
    let wait = boarded.saturating_sub(call.released);
    let over = wait.saturating_sub(building.patience());
    let ride = delivered.saturating_sub(boarded);
    call.persons as u64
        * (building.wait_weight() * wait
            + building.patience_weight() * over
            + building.travel_weight() * ride)
}

/// The cost in cost units of a group aboard that gets off at this moment, in ms.
pub fn cost_of_group(building: &Building, group: &Aboard, delivered: u64) -> u64
    requires persons { group.now.persons ≤ 8 }
    requires delivered { delivered ≤ MOMENT_LIMIT }
    ensures cost { result ≡ group_cost building.now group.now delivered }
    ensures bounded { result ≤ 100000000000000 * group.now.persons }
{
    let ride = delivered.saturating_sub(group.boarded);
    group.persons as u64 * (building.travel_weight() * ride)
}
