//! The nearest of the cars that can take the last call.

ghost use Rattle.std.specs.Prelude.{◌≡◌, ◌<◌, ◌≤◌, ◌&&◌, IfSome, slice_index};
ghost use Rattle.elevator_model.specs.Snapshot.{IsAccepted, call_count, car_count};
ghost use Rattle.what_if.specs.WhatIf.{IsNearest, distance as distance_lem, takes_asked};
ghost use Rattle.what_if.specs.Ends.{IsFirstLeast, distance_key, is_less};

use crate::variants::asked_of;
use call_state::{Building, Snapshot};

/// The height of a floor in mm, and 0 where the building lacks it.
fn height_of(building: &Building, floor: u32) -> u64
    ensures { result ≡ slice_index building.now.heights floor }
{
    building.heights().get(floor as usize).copied().unwrap_or(0)
}

/// How far in height the car's floor is from where the last call begins, in mm.
fn distance(snapshot: &Snapshot, car: u32) -> u64
    requires last { 1 ≤ call_count snapshot.now }
    requires car { car < car_count snapshot.now }
    ensures { result ≡ distance_lem snapshot.now car }
{
    let building = snapshot.building();
    let here = height_of(building, snapshot.car(car).floor());
    here.abs_diff(height_of(building, asked_of(snapshot).origin))
}

/// Whether the car may serve the last call.
pub(crate) fn takes_last(snapshot: &Snapshot, car: u32) -> bool
    requires { 1 ≤ call_count snapshot.now }
    ensures { result ≡ takes_asked snapshot.now car }
{
    let last = snapshot.calls().len() - 1;
    snapshot.may_take(car, last as u32)
}

/// Whether the car is nearer than the nearest so far, if there is one.
fn is_nearer(snapshot: &Snapshot, car: u32, nearest: Option<u32>) -> bool
    requires last { 1 ≤ call_count snapshot.now }
    requires car { car < car_count snapshot.now }
    requires nearest { IfSome nearest (λ c. c < car_count snapshot.now) }
    ensures { result ≡ is_less (distance_key snapshot.now) car nearest }
{
    match nearest {
        Some(other) => distance(snapshot, car) < distance(snapshot, other),
        None => true,
    }
}

/// Whether the car may serve the last call and is nearer than the nearest so far.
fn is_next_nearest(snapshot: &Snapshot, car: u32, nearest: Option<u32>) -> bool
    requires last { 1 ≤ call_count snapshot.now }
    requires car { car < car_count snapshot.now }
    requires nearest { IfSome nearest (λ c. c < car_count snapshot.now) }
    ensures { result ≡ (takes_asked snapshot.now car
        && is_less (distance_key snapshot.now) car nearest) }
{
    takes_last(snapshot, car) && is_nearer(snapshot, car, nearest)
}

/// The nearest of the cars that may serve the last call, and the first of these.
fn first_nearest(snapshot: &Snapshot) -> Option<u32>
    requires { 1 ≤ call_count snapshot.now }
    ensures first { IsFirstLeast (takes_asked snapshot.now) (distance_key snapshot.now)
        (car_count snapshot.now) result }
    ensures accepted { IsAccepted snapshot.now }
{
    let mut nearest = None;
    for car in 0..snapshot.building().cars().len() as u32 {
        if is_next_nearest(snapshot, car, nearest) {
            nearest = Some(car);
        }
    }
    nearest
}

/// The car with the least distance in height to where the last call begins, of those that can take it; of
/// equals, the first.
pub fn nearest_car(snapshot: &Snapshot) -> u32
    requires { 1 ≤ call_count snapshot.now }
    ensures { IsNearest snapshot.now result }
{
    match first_nearest(snapshot) {
        Some(car) => car,
        None => unreachable!(),
    }
}
