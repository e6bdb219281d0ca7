//! The plan with which a day begins: cars on their way come to a stop.

ghost use Rattle.std.specs.Prelude.{◌≡◌, ◌<◌, ◌≤◌, ◌+◌, ◌-◌, if◌then◌else◌, IfOk, OnOk};
ghost use Rattle.elevator_model.specs.Building.{floor_count};
ghost use Rattle.elevator_model.specs.Snapshot.{car_count, state_of};
ghost use Rattle.elevator_model.specs.Plans.{IsFeasiblePlan};
ghost use Rattle.search_model.specs.Sums.{lesser_of};
ghost use Rattle.search_model.specs.Days.{opening_tour as opening_tour_lem, opening_world};
ghost use Rattle.search_model.specs.Days.{floors_to_open as floors_to_open_lem};
ghost use Rattle.search_model.specs.Days.{nearest_open as nearest_open_lem, lone_stop as lone_stop_lem};
ghost use Rattle.day_state.specs.Openings.{IsOpeningSnapshot};

use call_state::{CarState, Snapshot, is_open};
use elevator_model::{Boards, Plan, Stop, Tour};
use std::alloc::{AllocError, Global};

/// The lesser of the least number so far, if there is one, and another.
fn lesser(least: Option<u32>, floors: u32) -> u32
    ensures { result ≡ lesser_of least floors }
{
    match least {
        Some(other) => other.min(floors),
        None => floors,
    }
}

/// How many floors away from `from` the nearest floor is where the moving car can still stop first.
fn floors_to_open(snapshot: &Snapshot, car: u32, from: u32, state: CarState) -> u32
    ensures { result ≡ floors_to_open_lem snapshot.now car from state }
{
    let mut least: Option<u32> = None;
    for floor in 0..snapshot.building().heights().len() as u32 {
        if is_open(snapshot.building(), car, snapshot.now(), state, floor) {
            least = Some(lesser(least, floor.abs_diff(from)));
        }
    }
    least.unwrap_or(0)
}

/// A tour with one stop, where nobody boards.
fn lone_stop(alloc: Global, floor: u32) -> Result<Tour, AllocError>
    ensures { IfOk result (λ tour. tour ≡ lone_stop_lem floor) }
{
    let mut tour = Tour::new(alloc);
    tour.push(Stop {
        floor,
        boards: Boards::new(alloc),
    })?;
    Ok(tour)
}

/// The tour that ends a car's way: a coming car stops where it comes to, a moving one at the nearest floor
/// that is open, and an idle one nowhere.
fn opening_tour(alloc: Global, snapshot: &Snapshot, car: u32) -> Result<Tour, AllocError>
    requires { car < car_count snapshot.now }
    ensures { IfOk result
        (λ tour. tour ≡ opening_tour_lem snapshot.now car (state_of snapshot.now car)) }
{
    let state = snapshot.car(car);
    match state {
        CarState::Idle { .. } => Ok(Tour::new(alloc)),
        CarState::Coming { floor, .. } => lone_stop(alloc, floor),
        CarState::Moving { from, up, .. } => {
            let floors = floors_to_open(snapshot, car, from, state);
            lone_stop(alloc, if up { from + floors } else { from - floors })
        }
    }
}

/// The plan that ends the way of each car.
pub(crate) fn opening_plan(alloc: Global, snapshot: &Snapshot) -> Result<Plan, AllocError>
    requires { IsOpeningSnapshot snapshot.now }
    ensures plan { IfOk result (λ plan. plan ≡ (opening_world snapshot.now).plan) }
    ensures feasible { IfOk result (λ plan. IsFeasiblePlan snapshot.now plan) }
{
    let mut plan = Plan::new(alloc);
    for car in 0..snapshot.building().cars().len() as u32 {
        plan.push(opening_tour(alloc, snapshot, car)?)?;
    }
    Ok(plan)
}
