//! What is wrong with a group aboard.

ghost use Rattle.std.specs.Prelude.{◌≡◌, ◌≤◌, ◌<◌, ◌+◌, ◌&&◌, ◌==◌, false, nat_lt, length, map};
ghost use Rattle.std.specs.List.{list_any};
ghost use Rattle.elevator_model.specs.declared.Aboard.{Aboard};
ghost use Rattle.elevator_model.specs.Faults.{fault_of_group, are_apart as are_apart_lem};
ghost use Rattle.elevator_model.specs.Faults.{is_on_wrong_side as is_on_wrong_side_lem, persons_in};

use crate::buildings::Building;
use crate::id_index::IdIndex;
use crate::state_faults::{is_open, serves_floor};
use elevator_model::{Aboard, CarState, Fault};

/// Whether a group of the list has this id.
pub(crate) fn has_group(groups: &[Aboard], id: u32) -> bool
    ensures { result ≡ list_any (λ (x : Aboard). x.id == id) groups.now }
{
    groups.iter().any(|group| group.id == id)
}

/// Whether two destinations lie on different sides of a floor, neither being that floor.
fn are_apart(floor: u32, one: u32, other: u32) -> bool
    ensures { result ≡ are_apart_lem floor one other }
{
    one < floor && floor < other || other < floor && floor < one
}

/// Whether a group of the car goes to the other side of the floor than this destination.
fn any_apart(groups: &[Aboard], car: u32, floor: u32, destination: u32) -> bool
    ensures { result ≡ list_any
        (λ (x : Aboard).
        (x.car == car) && are_apart_lem floor x.destination destination) groups.now }
{
    groups.iter().any(|group| group.car == car && are_apart(floor, group.destination, destination))
}

/// Whether the car cannot deliver a group to this destination beside those of the groups before.
fn is_on_wrong_side(
    building: &Building,
    now: u64,
    car: u32,
    state: CarState,
    before: &[Aboard],
    destination: u32,
) -> bool
    ensures { result ≡ is_on_wrong_side_lem building.now now car state before.now destination }
{
    match state {
        CarState::Idle { floor, .. } => destination == floor
            || any_apart(before, car, floor, destination),
        CarState::Coming { floor, .. } => any_apart(before, car, floor, destination),
        CarState::Moving { .. } => !is_open(building, car, now, state, destination),
    }
}

/// Whether the persons of the car's groups and these persons are more than the capacity. The sum itself
/// may be past any number, so what is left of the capacity is counted down.
fn is_overfull(capacity: u32, car: u32, before: &[Aboard], persons: u32) -> bool
    ensures { result ≡ nat_lt capacity (persons_in car before.now + persons) }
{
    let mut room = capacity;
    for group in before {
        if group.car == car {
            if room < group.persons {
                return true;
            }
            room -= group.persons;
        }
    }
    room < persons
}

/// The first fault of a group aboard whose id no group before it has.
fn fault_of_new(
    building: &Building,
    now: u64,
    states: &[CarState],
    before: &[Aboard],
    item: &Aboard,
) -> Option<Fault>
    requires new { list_any (λ (x : Aboard). x.id == item.now.id) before.now ≡ false }
    requires car { item.now.car < length building.now.cars }
    requires states { length states.now ≡ length building.now.cars }
    ensures { result ≡ fault_of_group building.now now states.now before.now item.now }
{
    let spec = building.cars()[item.car as usize];
    let state = states[item.car as usize];
    if building.heights().len() <= item.destination as usize {
        return Some(Fault::NoSuchFloor);
    }
    if is_on_wrong_side(building, now, item.car, state, before, item.destination) {
        return Some(Fault::WrongSide);
    }
    if is_overfull(spec.capacity, item.car, before, item.persons) {
        return Some(Fault::OverCapacity);
    }
    if spec.opening < item.boarded.saturating_sub(now) {
        return Some(Fault::MomentOutOfRange);
    }
    if !serves_floor(building, item.car, item.destination) {
        return Some(Fault::NotServed);
    }
    if item.persons < 1 || 8 < item.persons {
        return Some(Fault::PersonsOutOfRange);
    }
    None
}

/// The first fault of a group aboard, after the groups `before` it: of a snapshot of this building with
/// these states of its cars, at the moment `now` in ms.
pub fn aboard_fault(
    building: &Building,
    now: u64,
    states: &[CarState],
    before: &[Aboard],
    item: &Aboard,
) -> Option<Fault>
    requires car { item.now.car < length building.now.cars }
    requires states { length states.now ≡ length building.now.cars }
    ensures { result ≡ fault_of_group building.now now states.now before.now item.now }
{
    if has_group(before, item.id) {
        return Some(Fault::IdUsedBefore);
    }
    fault_of_new(building, now, states, before, item)
}

/// The same fault, where an index has the ids of the groups before: so its id is not looked for in them.
pub fn indexed_aboard_fault(
    building: &Building,
    now: u64,
    states: &[CarState],
    before: &[Aboard],
    ids: &IdIndex,
    item: &Aboard,
) -> Option<Fault>
    requires ids { ids.now ≡ map (λ (x : Aboard). x.id) before.now }
    requires car { item.now.car < length building.now.cars }
    requires states { length states.now ≡ length building.now.cars }
    ensures { result ≡ fault_of_group building.now now states.now before.now item.now }
{
    if ids.contains(item.id) {
        return Some(Fault::IdUsedBefore);
    }
    fault_of_new(building, now, states, before, item)
}
