//! Which car serves which call.

ghost use Rattle.std.specs.Prelude.{◌≡◌, ◌==◌, ◌<◌, ◌⊎◌, true, Some, length, slice_index, vec_len, IfOk};
ghost use Rattle.std.specs.List.{filter};
ghost use Rattle.elevator_model.specs.Snapshot.{call_count, call_of, car_count};
ghost use Rattle.elevator_model.specs.Snapshot.{is_possible as is_possible_lem};
ghost use Rattle.plain_plan.specs.PlainPlans.{AreChosen, calls_for};

use call_state::Snapshot;
use std::alloc::{AllocError, Global};

/// How many calls go to the car.
fn load_of(cars: &[u32], car: u32) -> usize {
    cars.iter().filter(|other| **other == car).count()
}

/// Whether the car may take the call.
fn is_possible(snapshot: &Snapshot, car: u32, call: u32) -> bool
    requires car { car < car_count snapshot.now }
    requires call { call < call_count snapshot.now }
    ensures { result ≡ is_possible_lem snapshot.now car (call_of snapshot.now call) }
{
    snapshot.possible(call).contains(car)
}

/// The one of two cars to which fewer of the calls so far go, or the first one.
fn less_loaded(cars: &[u32], best: Option<u32>, car: u32) -> u32
    ensures { (result ≡ car) ⊎ (best ≡ Some result) }
{
    match best {
        Some(best) if load_of(cars, best) <= load_of(cars, car) => best,
        Some(_) | None => car,
    }
}

/// The possible car to which the fewest of the calls so far go.
fn best_car(snapshot: &Snapshot, cars: &[u32], call: u32) -> u32
    requires { call < call_count snapshot.now }
    ensures car { result < car_count snapshot.now }
    ensures possible { is_possible_lem snapshot.now result (call_of snapshot.now call) ≡ true }
{
    let mut best = None;
    for car in 0..snapshot.building().cars().len() as u32 {
        if is_possible(snapshot, car, call) {
            best = Some(less_loaded(cars, best, car));
        }
    }
    match best {
        Some(car) => car,
        None => unreachable!(),
    }
}

/// For each open call the car to which it goes.
pub(crate) fn choose_cars(alloc: Global, snapshot: &Snapshot) -> Result<Vec<u32>, AllocError>
    ensures counted { IfOk result (λ cars. vec_len cars ≡ call_count snapshot.now) }
    ensures chosen { IfOk result (λ cars. AreChosen snapshot.now (slice_index cars.items)) }
{
    let mut cars = Vec::new(alloc);
    for call in 0..snapshot.calls().len() as u32 {
        let car = best_car(snapshot, cars.as_slice(), call);
        cars.push(car)?;
    }
    Ok(cars)
}

/// The calls that go to the car, in the order given.
pub(crate) fn calls_of_car(
    alloc: Global,
    order: &[u32],
    cars: &[u32],
    car: u32,
) -> Result<Vec<u32>, AllocError>
    ensures { IfOk result (λ calls. calls.items ≡ calls_for (slice_index cars.now) car order.now) }
{
    let mut calls = Vec::new(alloc);
    for call in order {
        if cars.get(*call as usize).copied().unwrap_or(0) == car {
            calls.push(*call)?;
        }
    }
    Ok(calls)
}
