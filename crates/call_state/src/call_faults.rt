//! What is wrong with an open call.

ghost use Rattle.std.specs.Prelude.{◌≡◌, ◌<◌, ◌==◌, false, List, length, map, IfSome};
ghost use Rattle.std.specs.List.{list_any};
ghost use Rattle.elevator_model.specs.declared.Aboard.{Aboard};
ghost use Rattle.elevator_model.specs.declared.Call.{Call};
ghost use Rattle.call_sets.specs.Counting.{any_below};
ghost use Rattle.elevator_model.specs.Snapshot.{can_take};
ghost use Rattle.elevator_model.specs.Faults.{fault_of_call, can_take_pinned as can_take_pinned_lem};

use crate::aboard_faults::has_group;
use crate::buildings::Building;
use crate::id_index::IdIndex;
use crate::state_faults::serves_floor;
use elevator_model::{Aboard, Call, Fault, MOST_PERSONS, most_calls};

/// Whether the car's size and floors allow the call.
pub(crate) fn can_car_take(building: &Building, car: u32, call: &Call) -> bool
    requires { car < length building.now.cars }
    ensures { result ≡ can_take building.now car call.now }
{
    call.persons <= building.cars()[car as usize].capacity
        && serves_floor(building, car, call.origin)
        && serves_floor(building, car, call.destination)
}

/// Whether a call of the list has this id.
fn has_call(calls: &[Call], id: u32) -> bool
    ensures { result ≡ list_any (λ (x : Call). x.id == id) calls.now }
{
    calls.iter().any(|call| call.id == id)
}

/// Whether some car of the building can take the call.
pub fn any_can_take(building: &Building, call: &Call) -> bool
    ensures { result ≡ any_below (length building.now.cars)
        (λ c. can_take building.now c call.now) }
{
    let mut found = false;
    for car in 0..building.cars().len() as u32 {
        found = found || can_car_take(building, car, call);
    }
    found
}

/// Whether the call is not pinned, or its car can take it.
fn can_take_pinned(building: &Building, call: &Call) -> bool
    requires { IfSome call.now.pin (λ c. c < length building.now.cars) }
    ensures { result ≡ can_take_pinned_lem building.now call.now.pin call.now }
{
    match call.pin {
        None => true,
        Some(car) => can_car_take(building, car, call),
    }
}

/// The first fault of an open call whose id no call before it and no group aboard has.
fn fault_of_new(building: &Building, now: u64, before: &[Call], item: &Call) -> Option<Fault>
    requires new { list_any (λ (x : Call). x.id == item.now.id) before.now ≡ false }
    requires pin { IfSome item.now.pin (λ c. c < length building.now.cars) }
    ensures { (aboard : List Aboard)
        → list_any (λ (x : Aboard). x.id == item.now.id) aboard ≡ false
        → result ≡ fault_of_call building.now now aboard before.now item.now }
{
    let floors = building.heights().len();
    if floors <= item.origin as usize || floors <= item.destination as usize {
        return Some(Fault::NoSuchFloor);
    }
    if item.origin == item.destination {
        return Some(Fault::OriginIsDestination);
    }
    if item.pin.is_none() && !any_can_take(building, item) {
        return Some(Fault::NoPossibleCar);
    }
    if !can_take_pinned(building, item) {
        return Some(Fault::PinCannotTake);
    }
    if now < item.released {
        return Some(Fault::MomentOutOfRange);
    }
    if most_calls(building.version()) as usize <= before.len() {
        return Some(Fault::TooManyCalls);
    }
    if item.persons < 1 || MOST_PERSONS < item.persons {
        return Some(Fault::PersonsOutOfRange);
    }
    None
}

/// The first fault of an open call, after the groups aboard and the calls `before` it: of a snapshot of
/// this building, at the moment `now` in ms.
pub fn call_fault(
    building: &Building,
    now: u64,
    aboard: &[Aboard],
    before: &[Call],
    item: &Call,
) -> Option<Fault>
    requires { IfSome item.now.pin (λ c. c < length building.now.cars) }
    ensures { result ≡ fault_of_call building.now now aboard.now before.now item.now }
{
    if has_group(aboard, item.id) || has_call(before, item.id) {
        return Some(Fault::IdUsedBefore);
    }
    fault_of_new(building, now, before, item)
}

/// The same fault, where indexes have the ids of the groups aboard, `groups`, and of the calls before,
/// `calls`: so its id is not looked for in them.
pub fn indexed_call_fault(
    building: &Building,
    now: u64,
    aboard: &[Aboard],
    groups: &IdIndex,
    before: &[Call],
    calls: &IdIndex,
    item: &Call,
) -> Option<Fault>
    requires groups { groups.now ≡ map (λ (x : Aboard). x.id) aboard.now }
    requires calls { calls.now ≡ map (λ (x : Call). x.id) before.now }
    requires pin { IfSome item.now.pin (λ c. c < length building.now.cars) }
    ensures { result ≡ fault_of_call building.now now aboard.now before.now item.now }
{
    if groups.contains(item.id) || calls.contains(item.id) {
        return Some(Fault::IdUsedBefore);
    }
    fault_of_new(building, now, before, item)
}
