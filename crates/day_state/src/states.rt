//! The state of a car at a moment between two stops.

ghost use Rattle.std.specs.Prelude.{◌≡◌, ◌<◌, ◌≤◌, ◌+◌, ◌&&◌, not, ℕ, List, length};
ghost use Rattle.call_sets.specs.Counting.{has, any_below};
ghost use Rattle.elevator_model.specs.Building.{floor_count};
ghost use Rattle.elevator_model.specs.Snapshot.{car_count, is_open as is_open_lem, state_of};
ghost use Rattle.elevator_model.specs.Tours.{Progress, rider_count, destination_of};
ghost use Rattle.tour_rules.specs.Places.{Tracks, call_in, group_in, group_carried};
ghost use Rattle.tour_rules.specs.Walking.{Walks};
ghost use Rattle.day_state.specs.Passing.{call_passed, group_passed};
ghost use Rattle.day_state.specs.Riding.{AreFloorsOf};
ghost use Rattle.search_model.specs.Advancing.{can_still_choose as can_still_choose_lem};
ghost use Rattle.search_model.specs.Advancing.{comes_to as comes_to_lem};
ghost use Rattle.search_model.specs.Advancing.{state_under_way as state_under_way_lem};
ghost use Rattle.search_model.specs.Advancing.{state_standing as state_standing_lem};
ghost use Rattle.search_model.specs.Advancing.{state_moving as state_moving_lem};
ghost use Rattle.search_model.specs.Advancing.{state_then as state_then_lem};

use call_sets::{CallSet, FloorSet};
use call_state::{Aboard, Building, Call, CarState, Snapshot, is_open};
use elevator_model::{MOMENT_LIMIT, MOST_CALLS, Stop};
use tour_rules::places::{CarPlace, is_carried};
use tour_rules::walking::Walker;

/// Whether a call of the set goes to a floor that is not open.
fn any_call_passed(
    building: &Building,
    car: u32,
    t: u64,
    state: CarState,
    calls: &[Call],
    carried: CallSet,
) -> bool
    requires { length calls.now ≤ MOST_CALLS }
    ensures { result ≡ any_below (length calls.now)
        (call_passed calls.now (is_open_lem building.now car t state) carried) }
{
    for (j, call) in calls.iter().enumerate() {
        if carried.contains(j as u32) && !is_open(building, car, t, state, call.destination) {
            return true;
        }
    }
    false
}

/// Whether a group of the car that is still aboard goes to a floor that is not open.
fn any_group_passed(
    building: &Building,
    car: u32,
    t: u64,
    state: CarState,
    groups: &[Aboard],
    visited: FloorSet,
) -> bool
    requires { (k : ℕ) → k < length groups.now → (group_in groups.now k).destination < 64 }
    ensures { result ≡ any_below (length groups.now)
        (group_passed groups.now car (is_open_lem building.now car t state) visited) }
{
    for group in groups {
        if is_carried(group, car, visited) && !is_open(building, car, t, state, group.destination) {
            return true;
        }
    }
    false
}

/// Whether the car, in this state at the moment `t`, can still stop first at the floor, and at the
/// destination of everyone whom it carries.
fn can_still_choose(
    snapshot: &Snapshot,
    car: u32,
    t: u64,
    place: &CarPlace,
    state: CarState,
    stop: &Stop,
) -> bool
    ensures { (p : Progress) → Tracks snapshot.now car place.now p
        → result ≡ can_still_choose_lem snapshot.now car t p state stop.now }
{
    let building = snapshot.building();
    let (calls, groups) = (snapshot.calls(), snapshot.aboard());
    is_open(building, car, t, state, stop.floor)
        && !(any_call_passed(building, car, t, state, calls, place.carried)
            || any_group_passed(building, car, t, state, groups, place.visited))
}

/// The state of a car that comes to this stop.
fn comes_to(snapshot: &Snapshot, car: u32, walker: &Walker, stop: &Stop) -> CarState
    requires car { car < car_count snapshot.now }
    requires from { walker.now.place.floor < floor_count snapshot.now.building }
    requires to { stop.now.floor < floor_count snapshot.now.building }
    requires early { walker.now.leaves ≤ MOMENT_LIMIT }
    ensures { (p : Progress) → Walks snapshot.now car walker.now p
        → result ≡ comes_to_lem snapshot.now car p stop.now }
{
    CarState::Coming {
        floor: stop.floor,
        arrives: walker.arrival(snapshot, car, stop.floor),
    }
}

/// The state of a car that has left the floor of its last stop: on the way to the next one, or with nowhere
/// to go.
fn state_under_way(
    snapshot: &Snapshot,
    car: u32,
    t: u64,
    walker: &Walker,
    left: &[Stop],
) -> CarState
    requires car { car < car_count snapshot.now }
    requires from { walker.now.place.floor < floor_count snapshot.now.building }
    requires to { AreFloorsOf snapshot.now left.now }
    requires early { walker.now.leaves ≤ MOMENT_LIMIT }
    ensures { (p : Progress) → Walks snapshot.now car walker.now p
        → result ≡ state_under_way_lem snapshot.now car t p left.now }
{
    let from = walker.place.floor;
    let Some(stop) = left.first() else {
        return CarState::Idle {
            floor: from,
            free: t,
        };
    };
    let moving = CarState::Moving {
        from,
        up: from < stop.floor,
        left: walker.leaves,
    };
    if snapshot.version() == 2 && can_still_choose(snapshot, car, t, &walker.place, moving, stop) {
        moving
    } else {
        comes_to(snapshot, car, walker, stop)
    }
}

/// The state of a car that stands at the floor of its last stop, or has left it.
fn state_standing(snapshot: &Snapshot, car: u32, t: u64, walker: &Walker, left: &[Stop]) -> CarState
    requires car { car < car_count snapshot.now }
    requires from { walker.now.place.floor < floor_count snapshot.now.building }
    requires to { AreFloorsOf snapshot.now left.now }
    requires early { walker.now.leaves ≤ MOMENT_LIMIT }
    ensures { (p : Progress) → Walks snapshot.now car walker.now p
        → result ≡ state_standing_lem snapshot.now car t p left.now }
{
    if t <= walker.leaves {
        CarState::Idle {
            floor: walker.place.floor,
            free: walker.leaves,
        }
    } else {
        state_under_way(snapshot, car, t, walker, left)
    }
}

/// The state of a car that was moving and has made no stop.
fn state_moving(
    snapshot: &Snapshot,
    car: u32,
    t: u64,
    walker: &Walker,
    state: CarState,
    left: &[Stop],
) -> CarState
    requires car { car < car_count snapshot.now }
    requires from { walker.now.place.floor < floor_count snapshot.now.building }
    requires to { AreFloorsOf snapshot.now left.now }
    requires early { walker.now.leaves ≤ MOMENT_LIMIT }
    ensures { (p : Progress) → Walks snapshot.now car walker.now p
        → result ≡ state_moving_lem snapshot.now car t p state left.now }
{
    match left.first() {
        Some(stop) if !can_still_choose(snapshot, car, t, &walker.place, state, stop) => {
            comes_to(snapshot, car, walker, stop)
        }
        Some(_) | None => state,
    }
}

/// The car's state at the moment `t`, where it is after the stops done and has these stops left.
pub(crate) fn state_then(
    snapshot: &Snapshot,
    car: u32,
    t: u64,
    walker: &Walker,
    left: &[Stop],
) -> CarState
    requires car { car < car_count snapshot.now }
    requires from { walker.now.place.floor < floor_count snapshot.now.building }
    requires to { AreFloorsOf snapshot.now left.now }
    requires early { walker.now.leaves ≤ MOMENT_LIMIT }
    ensures { (p : Progress) → Walks snapshot.now car walker.now p
        → result ≡ state_then_lem snapshot.now car t p left.now }
{
    let state = snapshot.car(car);
    if walker.place.begun || state.is_idle() {
        state_standing(snapshot, car, t, walker, left)
    } else if state.is_moving() {
        state_moving(snapshot, car, t, walker, state, left)
    } else {
        state
    }
}
