//! What is wrong with a car of a building.

ghost use Rattle.std.specs.Prelude.{◌≡◌, ◌≤◌, ◌==◌};
ghost use Rattle.std.specs.List.{list_any};
ghost use Rattle.elevator_model.specs.Faults.{fault_of_spec};
ghost use Rattle.elevator_model.specs.declared.CarSpec.{CarSpec};
ghost use Rattle.call_state.specs.Tests.{is_in_range};

use elevator_model::{CarSpec, Fault};

/// Whether the car's capacity and times are in their ranges.
fn is_in_range(car: &CarSpec) -> bool
    ensures { result ≡ is_in_range car.now }
{
    1 <= car.capacity
        && car.capacity <= 64
        && car.opening <= 60_000
        && car.closing <= 60_000
        && car.boarding <= 60_000
        && car.alighting <= 60_000
}

/// Whether a car of the list has this id.
pub fn has_car(cars: &[CarSpec], id: u32) -> bool
    ensures { result ≡ list_any (λ (x : CarSpec). x.id == id) cars.now }
{
    cars.iter().any(|car| car.id == id)
}

/// The first fault of a car, after the cars `before` it: of a building with this many floors, which may have
/// at most `greatest` cars.
pub fn spec_fault(floors: u32, greatest: u32, before: &[CarSpec], item: &CarSpec) -> Option<Fault>
    requires { floors ≤ 64 }
    ensures { result ≡ fault_of_spec floors greatest before.now item.now }
{
    if !is_in_range(item) {
        return Some(Fault::OutOfRange);
    }
    if has_car(before, item.id) {
        return Some(Fault::IdUsedBefore);
    }
    if !item.serves.is_below(floors) {
        return Some(Fault::NoSuchFloor);
    }
    if greatest as usize <= before.len() {
        return Some(Fault::TooManyCars);
    }
    if item.serves.count_below(floors) < 2 {
        return Some(Fault::NotServed);
    }
    None
}
