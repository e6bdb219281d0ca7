//! The floors where a car has to stop before it serves calls.

ghost use Rattle.std.specs.Prelude.{◌≡◌, ◌<◌, ◌≤◌, ◌==◌, ◌&&◌, ◌+◌, true, length, [], ◌∷◌, ◌++◌};
ghost use Rattle.std.specs.Prelude.{if◌then◌else◌, unwrap_or, IfOk, OnOk};
ghost use Rattle.elevator_model.specs.Building.{floor_count};
ghost use Rattle.call_sets.specs.Counting.{any_below};
ghost use Rattle.elevator_model.specs.Snapshot.{car_count, group_of, serves, is_open as is_open_lem};
ghost use Rattle.plain_plan.specs.Openings.{is_destination as is_destination_lem, falling};
ghost use Rattle.plain_plan.specs.Openings.{floors_above as floors_above_lem};
ghost use Rattle.plain_plan.specs.Openings.{floors_aboard as floors_aboard_lem, IsOpening};

use call_state::{CarState, Snapshot, is_open};
use std::alloc::{AllocError, Global};

/// Whether a group aboard the car goes to the floor.
fn is_destination(snapshot: &Snapshot, car: u32, floor: u32) -> bool
    ensures { result ≡ is_destination_lem snapshot.now car floor }
{
    for group in snapshot.aboard() {
        if group.car == car && group.destination == floor {
            return true;
        }
    }
    false
}

/// Adds the floor, if a group aboard the car goes there.
fn add_destination(
    snapshot: &Snapshot,
    car: u32,
    floor: u32,
    floors: &mut Vec<u32>,
) -> Result<(), AllocError>
    ensures { OnOk result
        (floors.new.items ≡ floors.old.items ++
        (if is_destination_lem snapshot.now car floor then floor ∷ [] else [])) }
{
    if is_destination(snapshot, car, floor) {
        floors.push(floor)?;
    }
    Ok(())
}

/// The destinations of those aboard above a floor, rising.
fn floors_above(
    alloc: Global,
    snapshot: &Snapshot,
    car: u32,
    floor: u32,
) -> Result<Vec<u32>, AllocError>
    requires { floor < floor_count snapshot.now.building }
    ensures { IfOk result (λ floors. floors.items ≡ floors_above_lem snapshot.now car floor) }
{
    let count = snapshot.building().heights().len() as u32;
    let mut floors = Vec::new(alloc);
    for other in floor + 1..count {
        add_destination(snapshot, car, other, &mut floors)?;
    }
    Ok(floors)
}

/// The destinations of those aboard below a floor, falling.
fn floors_below(
    alloc: Global,
    snapshot: &Snapshot,
    car: u32,
    floor: u32,
) -> Result<Vec<u32>, AllocError>
    ensures { IfOk result
        (λ floors. floors.items ≡ falling (is_destination_lem snapshot.now car) floor) }
{
    let mut floors = Vec::new(alloc);
    for other in (0..floor).rev() {
        add_destination(snapshot, car, other, &mut floors)?;
    }
    Ok(floors)
}

/// The destinations of those aboard but for this floor, one after another: all are above it or all below.
fn floors_aboard(
    alloc: Global,
    snapshot: &Snapshot,
    car: u32,
    floor: u32,
) -> Result<Vec<u32>, AllocError>
    requires { floor < floor_count snapshot.now.building }
    ensures { IfOk result (λ floors. floors.items ≡ floors_aboard_lem snapshot.now car floor) }
{
    let above = floors_above(alloc, snapshot, car, floor)?;
    if above.is_empty() {
        return floors_below(alloc, snapshot, car, floor);
    }
    Ok(above)
}

/// Of an open floor and one above it, the one that the car reaches first: open floors lie ahead of it.
fn nearer(lower: Option<u32>, floor: u32, up: bool) -> u32
    ensures { result ≡ (if up then unwrap_or lower floor else floor) }
{
    if up { lower.unwrap_or(floor) } else { floor }
}

/// The open floor that a moving car reaches first.
fn nearest_open(snapshot: &Snapshot, car: u32, from: u32, up: bool, left: u64) -> u32
    requires car { car < car_count snapshot.now }
    requires from { from < floor_count snapshot.now.building }
    requires left { left ≤ snapshot.now.moment }
    requires some { any_below (floor_count snapshot.now.building)
        (is_open_lem snapshot.now.building car snapshot.now.moment (CarState.Moving from up left))
        ≡ true }
    ensures { is_open_lem snapshot.now.building car snapshot.now.moment
        (CarState.Moving from up left) result ≡ true }
{
    let state = CarState::Moving { from, up, left };
    let mut nearest = None;
    for floor in 0..snapshot.building().heights().len() as u32 {
        if is_open(snapshot.building(), car, snapshot.now(), state, floor) {
            nearest = Some(nearer(nearest, floor, up));
        }
    }
    match nearest {
        Some(floor) => floor,
        None => unreachable!(),
    }
}

/// The floors where the car has to stop before it serves calls.
pub fn opening_floors(alloc: Global, snapshot: &Snapshot, car: u32) -> Result<Vec<u32>, AllocError>
    requires { car < car_count snapshot.now }
    ensures { IfOk result (λ floors. IsOpening snapshot.now car floors.items) }
{
    match snapshot.car(car) {
        CarState::Idle { floor, .. } => floors_aboard(alloc, snapshot, car, floor),
        CarState::Coming { floor, .. } => {
            let mut floors = floors_aboard(alloc, snapshot, car, floor)?;
            floors.insert(0, floor)?;
            Ok(floors)
        }
        CarState::Moving { from, up, left } => {
            let mut floors = floors_aboard(alloc, snapshot, car, from)?;
            if floors.is_empty() {
                floors.push(nearest_open(snapshot, car, from, up, left))?;
            }
            Ok(floors)
        }
    }
}
