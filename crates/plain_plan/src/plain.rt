//! The plain plan: each car lets off those aboard, and then serves its calls one after another.

ghost use Rattle.std.specs.Prelude.{◌≡◌, ◌<◌, ◌++◌, ◌∷◌, [], ℕ, List, length, slice_index, EachIndex, OnOk};
ghost use Rattle.std.specs.Prelude.{IfOk};
ghost use Rattle.elevator_model.specs.declared.Stop.{Stop};
ghost use Rattle.elevator_model.specs.Snapshot.{call_count, car_count};
ghost use Rattle.elevator_model.specs.Plans.{IsFeasiblePlan};
ghost use Rattle.plain_plan.specs.PlainTours.{after_pending, served, at};
ghost use Rattle.plain_plan.specs.Openings.{IsPlainTour};

use crate::choosing::{calls_of_car, choose_cars};
use crate::opening::opening_floors;
use crate::sorting::calls_in_order;
use call_state::Snapshot;
use elevator_model::{Boards, Plan, Stop, Tour};
use std::alloc::{AllocError, Global};

/// A stop where nobody boards.
fn empty_stop(alloc: Global, floor: u32) -> Stop
    ensures { result ≡ at floor [] }
{
    Stop {
        floor,
        boards: Boards::new(alloc),
    }
}

/// A stop where one call boards.
fn boarding_stop(alloc: Global, floor: u32, call: u32) -> Result<Stop, AllocError>
    ensures { IfOk result (λ stop. stop ≡ at floor (call ∷ [])) }
{
    let mut boards = Boards::new(alloc);
    boards.push(call)?;
    Ok(Stop { floor, boards })
}

/// Adds a stop at the pending floor, where the next stop is elsewhere.
fn add_pending(
    alloc: Global,
    stops: &mut Vec<Stop>,
    pending: Option<u32>,
    next: u32,
) -> Result<(), AllocError>
    ensures { OnOk result ((later : List Stop)
        → stops.new.items ++ later ≡ stops.old.items ++ after_pending pending next later) }
{
    if let Some(floor) = pending {
        if floor != next {
            stops.push(empty_stop(alloc, floor))?;
        }
    }
    Ok(())
}

/// Adds the stops that serve the calls one after another. The car stops at the pending floor next, to let
/// off all that it carries.
fn add_served(
    alloc: Global,
    snapshot: &Snapshot,
    stops: &mut Vec<Stop>,
    pending: Option<u32>,
    calls: &[u32],
) -> Result<(), AllocError>
    requires { EachIndex calls.now (λ k. slice_index calls.now k < call_count snapshot.now) }
    ensures { OnOk result
        (stops.new.items ≡ stops.old.items ++ served snapshot.now pending calls.now) }
{
    let mut pending = pending;
    for call in calls {
        let wanted = snapshot.calls()[*call as usize];
        add_pending(alloc, stops, pending, wanted.origin)?;
        stops.push(boarding_stop(alloc, wanted.origin, *call)?)?;
        pending = Some(wanted.destination);
    }
    if let Some(floor) = pending {
        stops.push(empty_stop(alloc, floor))?;
    }
    Ok(())
}

/// The plain tour of a car, for calls in this order.
fn plain_tour(
    alloc: Global,
    snapshot: &Snapshot,
    car: u32,
    calls: &[u32],
) -> Result<Tour, AllocError>
    requires car { car < car_count snapshot.now }
    requires calls { EachIndex calls.now (λ k. slice_index calls.now k < call_count snapshot.now) }
    ensures { IfOk result (λ tour. IsPlainTour snapshot.now car calls.now tour) }
{
    let floors = opening_floors(alloc, snapshot, car)?;
    let mut stops = Vec::new(alloc);
    let mut pending = None;
    for floor in &floors {
        add_pending(alloc, &mut stops, pending, *floor)?;
        pending = Some(*floor);
    }
    add_served(alloc, snapshot, &mut stops, pending, calls)?;
    Ok(Tour::from_vec(stops))
}

/// A feasible plan of the snapshot, found without a search: every accepted snapshot has one. The only error
/// is that memory runs out.
///
/// Each car lets off those aboard and then serves its calls one after another; a call goes to the possible
/// car with the fewest calls so far.
pub fn plan_of(alloc: Global, snapshot: &Snapshot) -> Result<Plan, AllocError>
    ensures { IfOk result (λ plan. IsFeasiblePlan snapshot.now plan) }
{
    let order = calls_in_order(alloc, snapshot)?;
    let cars = choose_cars(alloc, snapshot)?;
    let mut tours = Vec::new(alloc);
    for car in 0..snapshot.building().cars().len() as u32 {
        let calls = calls_of_car(alloc, order.as_slice(), cars.as_slice(), car)?;
        tours.push(plain_tour(alloc, snapshot, car, calls.as_slice())?)?;
    }
    Ok(Plan::from_vec(tours))
}
