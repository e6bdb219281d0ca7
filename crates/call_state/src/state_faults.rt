//! What is wrong with the state of a car.

ghost use Rattle.std.specs.Prelude.{◌≡◌, ◌≤◌, ◌<◌, ◌+◌, ◌||◌, nat_lt, length, slice_index};
ghost use Rattle.call_sets.specs.Counting.{any_below};
ghost use Rattle.elevator_model.specs.Building.{IsBuilding, car_of, floor_count};
ghost use Rattle.elevator_model.specs.Snapshot.{serves, is_open as is_open_lem};
ghost use Rattle.elevator_model.specs.Travel.{can_stop as can_stop_lem};
ghost use Rattle.elevator_model.specs.Faults.{fault_of_state, has_no_open_floor as has_no_open_floor_lem};
ghost use Rattle.elevator_model.specs.Faults.{is_untimely as is_untimely_lem};

use crate::buildings::Building;
use call_sets::FloorSet;
use elevator_model::{CarState, Fault, LONGEST_WORK};

/// The floors that the car serves, and none where the building lacks the car.
fn floors_of(building: &Building, car: u32) -> FloorSet
    ensures value { result ≡ (car_of building.now car).serves }
    ensures building { IsBuilding building.now }
{
    match building.cars().get(car as usize) {
        Some(spec) => spec.serves,
        None => FloorSet::empty(),
    }
}

/// Whether the car serves this floor: never so where the building lacks the car or the floor.
pub fn serves_floor(building: &Building, car: u32, floor: u32) -> bool
    ensures { result ≡ serves building.now car floor }
{
    (floor as usize) < building.heights().len() && floors_of(building, car).contains(floor)
}

/// The height of a floor in mm, and 0 where the building lacks it.
fn height_of(building: &Building, floor: u32) -> u64
    ensures value { result ≡ slice_index building.now.heights floor }
    ensures bounded { result ≤ 1000000 }
{
    building.heights().get(floor as usize).copied().unwrap_or(0)
}

/// Whether a car that has driven this long from rest can still stop at this distance from its start.
/// Speed in mm/s, acceleration in mm/s², time in ms, distance in mm.
pub fn can_stop(speed: u64, accel: u64, time: u64, distance: u64) -> bool
    ensures { result ≡ can_stop_lem speed accel time distance }
{
    let (speed, accel, time, distance) = (
        speed as u128,
        accel as u128,
        time as u128,
        distance as u128,
    );
    if accel * time <= 1000 * speed {
        // A product past the numbers is past every distance too.
        (accel * time).saturating_mul(time) <= 1000000 * distance
    } else {
        speed * time <= 1000 * distance
    }
}

/// Whether a car that left a floor at the moment `left` can still stop first at `floor`.
fn is_open_from(
    building: &Building,
    car: u32,
    now: u64,
    from: u32,
    up: bool,
    left: u64,
    floor: u32,
) -> bool
    ensures { result ≡ is_open_lem building.now car now (CarState.Moving from up left) floor }
{
    serves_floor(building, car, floor)
        && (if up { from < floor } else { floor < from })
        && can_stop(
            building.speed(),
            building.accel(),
            now.saturating_sub(left),
            height_of(building, from).abs_diff(height_of(building, floor)),
        )
        && now.saturating_sub(left) <= building.travel().time_or_zero(from, floor)
}

/// Whether the car, in this state at the moment `now` in ms, can still stop first at the floor. No floor is
/// open for a car that does not move, and none that the car does not serve.
pub fn is_open(building: &Building, car: u32, now: u64, state: CarState, floor: u32) -> bool
    ensures { result ≡ is_open_lem building.now car now state floor }
{
    match state {
        CarState::Idle { .. } | CarState::Coming { .. } => false,
        CarState::Moving { from, up, left } => {
            is_open_from(building, car, now, from, up, left, floor)
        }
    }
}

/// Whether a floor is open for the state.
fn any_open(building: &Building, car: u32, now: u64, state: CarState) -> bool
    ensures { result ≡ any_below (floor_count building.now)
        (is_open_lem building.now car now state) }
{
    let mut found = false;
    for floor in 0..building.heights().len() as u32 {
        found = found || is_open(building, car, now, state, floor);
    }
    found
}

fn has_no_open_floor(building: &Building, now: u64, car: u32, state: CarState) -> bool
    ensures { result ≡ has_no_open_floor_lem building.now now car state }
{
    state.is_moving() && !any_open(building, car, now, state)
}

/// Whether a moment lies before this one, or too long after it.
fn is_out_of_reach(now: u64, moment: u64) -> bool
    ensures { result ≡ (nat_lt moment now || nat_lt (now + 100000000) moment) }
{
    moment < now || LONGEST_WORK < moment - now
}

fn is_untimely(now: u64, state: CarState) -> bool
    ensures { result ≡ is_untimely_lem now state }
{
    match state {
        CarState::Idle { free, .. } => is_out_of_reach(now, free),
        CarState::Coming { arrives, .. } => is_out_of_reach(now, arrives),
        CarState::Moving { left, .. } => now < left,
    }
}

/// The first fault of the state of a car, at the moment `now` in ms.
pub fn state_fault(building: &Building, now: u64, car: u32, state: CarState) -> Option<Fault>
    ensures { result ≡ fault_of_state building.now now car state }
{
    let floor = state.floor();
    if building.heights().len() <= floor as usize {
        return Some(Fault::NoSuchFloor);
    }
    if is_untimely(now, state) {
        return Some(Fault::MomentOutOfRange);
    }
    if !serves_floor(building, car, floor) {
        return Some(Fault::NotServed);
    }
    if has_no_open_floor(building, now, car, state) {
        return Some(Fault::NoOpenFloor);
    }
    None
}
