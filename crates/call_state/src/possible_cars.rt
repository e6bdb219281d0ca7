//! The cars that may take each call.

ghost use Rattle.std.specs.Prelude.{◌≡◌, ℕ, ◌<◌, length, IfOk};
ghost use Rattle.call_state.specs.Possible.{ArePossible, IsPossibleSet, may_take};

use crate::buildings::Building;
use crate::call_faults::can_car_take;
use call_sets::CarSet;
use elevator_model::Call;
use std::alloc::{AllocError, Global};

/// Whether the car is one of the call's possible cars.
fn is_possible_car(building: &Building, car: u32, call: &Call) -> bool
    requires { car < length building.now.cars }
    ensures { result ≡ may_take building.now car call.now }
{
    let is_pinned_elsewhere = match call.pin {
        Some(pin) => pin != car,
        None => false,
    };
    !is_pinned_elsewhere && can_car_take(building, car, call)
}

/// The call's possible cars.
fn cars_for(building: &Building, call: &Call) -> CarSet
    ensures { IsPossibleSet building.now call.now result }
{
    let mut possible = CarSet::empty();
    for car in 0..building.cars().len() as u32 {
        if is_possible_car(building, car, call) {
            possible = possible.with(car);
        }
    }
    possible
}

/// The possible cars of each call, in the order of the calls. It fails only where there is no memory left.
pub(crate) fn possible_cars(
    alloc: Global,
    building: &Building,
    calls: &[Call],
) -> Result<Vec<CarSet>, AllocError>
    ensures { IfOk result (λ sets. ArePossible building.now calls.now sets.items) }
{
    let mut sets = Vec::with_capacity(alloc, calls.len())?;
    for call in calls {
        sets.push(cars_for(building, call))?;
    }
    Ok(sets)
}
