//! The building of a case.

ghost use Rattle.std.specs.Prelude.{◌≡◌, ℕ, ◌+◌, ◌*◌, ◌≤◌, ◌<◌, IfOk, map};
ghost use Rattle.std.specs.List.{range_with_len};
ghost use Rattle.elevator_model.specs.Travel.{IsTravelOf};
ghost use Rattle.elevator_model.specs.Building.{IsBuilding};
ghost use Rattle.search_model.specs.Cases.{case_car, case_building};

use crate::faultless;
use call_sets::FloorSet;
use call_state::{Building, BuildingParts};
use car_motion::travel_of;
use elevator_model::CarSpec;
use std::alloc::{AllocError, Global};

/// From one floor to the next, in mm.
const FLOOR_HEIGHT: u64 = 4_000;

/// The greatest speed of each car, in mm/s.
const SPEED: u64 = 2_000;

/// The acceleration and braking of each car, in mm/s².
const ACCEL: u64 = 1_000;

/// The heights of this many floors, in mm.
fn heights_of(alloc: Global, floors: u32) -> Result<Vec<u64>, AllocError>
    ensures { IfOk result (λ heights. heights.items ≡ map (λ f. 4000 * f) (range_with_len 0 floors)) }
{
    (0..floors)
        .map(|floor| FLOOR_HEIGHT * u64::from(floor))
        .collect(alloc)
}

/// The car with this index. It serves all floors.
fn car_of(floors: u32, car: u32) -> CarSpec
    requires floors { floors ≤ 64 }
    requires car { car < u32.MAX }
    ensures { result ≡ case_car floors car }
{
    CarSpec {
        id: car + 1,
        capacity: 8,
        opening: 1_000,
        closing: 1_000,
        boarding: 500,
        alighting: 500,
        serves: FloorSet::lowest(floors),
    }
}

/// This many cars.
fn cars_of(alloc: Global, floors: u32, cars: u32) -> Result<Vec<CarSpec>, AllocError>
    requires { floors ≤ 64 }
    ensures { IfOk result (λ specs. specs.items ≡ map (case_car floors) (range_with_len 0 cars)) }
{
    let mut specs = Vec::new(alloc);
    for car in 0..cars {
        specs.push(car_of(floors, car))?;
    }
    Ok(specs)
}

/// The building of each case with this many floors and cars.
pub(crate) fn building_of(alloc: Global, floors: u32, cars: u32) -> Result<Building, AllocError>
    requires floors_low { 2 ≤ floors }
    requires floors_high { floors ≤ 64 }
    requires cars_low { 1 ≤ cars }
    requires cars_high { cars ≤ 8 }
    ensures value { IfOk result (λ building. building ≡ case_building building.travel floors cars) }
    ensures travel { IfOk result (λ building. IsTravelOf building.heights 2000 1000 building.travel) }
    ensures valid { IfOk result (λ building. IsBuilding building) }
{
    let heights = heights_of(alloc, floors)?;
    let travel = travel_of(alloc, &heights, SPEED, ACCEL)?;
    let parts = BuildingParts {
        version: 1,
        heights,
        speed: SPEED,
        accel: ACCEL,
        wait_weight: 1,
        travel_weight: 1,
        patience: 0,
        patience_weight: 0,
        cars: cars_of(alloc, floors, cars)?,
        travel,
    };
    faultless(Building::build(alloc, parts))
}
