//! Buildings and their cars.

ghost use Rattle.std.specs.Prelude.{◌≡◌, ℕ, ◌≤◌, ◌<◌, [], length, nat_lt, IfOk, OnOk, IfErr, IfNone};
ghost use Rattle.std.specs.Prelude.{MatchOption};
ghost use Rattle.std.specs.List.{list_any};
ghost use Rattle.elevator_model.specs.Travel.{IsTravelSquare};
ghost use Rattle.elevator_model.specs.Building.{IsBuilding, car_of};
ghost use Rattle.elevator_model.specs.Faults.{is_rising, fault_of_frame, fault_of_spec, first_in};
ghost use Rattle.elevator_model.specs.Faults.{first_fault_of_building};
ghost use Rattle.call_state.specs.Refusals.{Names, SpeaksAgainst};
ghost use Rattle.call_state.specs.Tests.{has_motion_in_range, has_weights_in_range};

use crate::car_faults::spec_fault;
use crate::id_index::IdIndex;
use crate::squares::Travel;
use crate::{Fault, StateFault};
use elevator_model::{CarSpec, MOST_CARS, most_cars};
use std::alloc::{AllocError, Global};
use std::marker::Model;

/// What a building is made of.
#[derive(Drop)]
pub struct BuildingParts {
    /// 1, 2 or 3: version 1 has no patience, at most 8 cars and 64 open calls, the others at most 16 cars
    /// and 128 calls.
    pub version: u8,
    /// The heights of the floors in mm, rising.
    pub heights: Vec<u64>,
    /// mm/s.
    pub speed: u64,
    /// mm/s².
    pub accel: u64,
    /// Cost units for a person's ms of waiting.
    pub wait_weight: u64,
    /// Cost units for a person's ms of riding.
    pub travel_weight: u64,
    /// The wait in ms past which a person's ms weighs `patience_weight` more.
    pub patience: u64,
    /// Cost units for a person's ms of waiting past the patience.
    pub patience_weight: u64,
    pub cars: Vec<CarSpec>,
    pub travel: Travel,
}

/// A building that keeps the rules: its numbers are in their ranges, its heights rise, and each of its
/// cars has an id of its own and serves at least two floors.
#[derive(Drop)]
pub struct Building {
    parts: BuildingParts,
    ids: IdIndex,
}

impl Model for Building {
    ghost use Rattle.std.specs.Prelude.{◌≡◌, map};
    ghost use Rattle.elevator_model.specs.declared.CarSpec.{CarSpec};
    ghost use Rattle.elevator_model.specs.Building.{Building as Record, IsBuilding};
    ghost use Rattle.call_state.specs.BuildingParts.{building_of};

    ghost Value = { Record };

    ghost view = { λ b. building_of b.parts };

    ghost invariant = { λ b. IsBuilding (building_of b.parts)
        × (b.ids ≡ map (λ (x : CarSpec). x.id) b.parts.cars.items) };
}

impl Building {
    ghost use Rattle.call_state.specs.BuildingParts.{building_of};

    /// The building with these parts.
    ///
    /// It fails with the first fault, at the building itself or at a car, exactly where the parts do not
    /// keep the rules, and with `NoMemory` where there is no memory left.
    pub fn build(alloc: Global, parts: BuildingParts) -> Result<Building, StateFault>
        ensures value { IfOk result (λ building. building ≡ building_of parts) }
        ensures faultless { OnOk result (first_fault_of_building (building_of parts) ≡ None) }
        ensures valid { OnOk result (IsBuilding (building_of parts)) }
        ensures fault { IfErr result (Names (first_fault_of_building (building_of parts))) }
        ensures refused { IfErr result (SpeaksAgainst (IsBuilding (building_of parts))) }
    {
        if let Some((fault, item)) = parts.first_fault() {
            return Err(StateFault::Bad { fault, item });
        }
        Ok(Building::of_faultless(alloc, parts)?)
    }

    /// The building with these parts, which are known to keep the rules, so that nothing is judged again. It
    /// fails only where there is no memory left.
    pub fn of_faultless(alloc: Global, parts: BuildingParts) -> Result<Building, AllocError>
        requires { IsBuilding (building_of parts) }
        ensures { IfOk result (λ building. building ≡ building_of parts) }
    {
        let ids = IdIndex::of_cars(alloc, &parts.cars)?;
        Ok(Building { parts, ids })
    }

    /// The index of the car with this id, and `None` exactly where no car has it.
    pub fn car_of(&self, id: u32) -> Option<u32>
        ensures car { MatchOption result ((c : ℕ) → c < length self.now.cars
            → (car_of self.now c).id ≡ id → ⊥) (λ c. (c < length self.now.cars)
            × ((car_of self.now c).id ≡ id)) }
        ensures building { IsBuilding self.now }
    {
        match self.ids.place_of(id) {
            Some(place) => Some(place as u32),
            None => None,
        }
    }

    /// A copy of the building. It fails only where there is no memory left.
    pub fn copy(&self, alloc: Global) -> Result<Building, AllocError>
        ensures { IfOk result (λ building. building ≡ self.now) }
    {
        Building::of_faultless(alloc, self.parts.copy(alloc)?)
    }

    /// 1, 2 or 3.
    pub fn version(&self) -> u8
        ensures value { result ≡ self.now.version }
        ensures building { IsBuilding self.now }
    {
        self.parts.version
    }

    /// The heights of the floors in mm, rising.
    pub fn heights(&self) -> &[u64]
        ensures value { result.now ≡ self.now.heights }
        ensures building { IsBuilding self.now }
    {
        self.parts.heights.as_slice()
    }

    /// The greatest speed in mm/s.
    pub fn speed(&self) -> u64
        ensures value { result ≡ self.now.speed }
        ensures building { IsBuilding self.now }
    {
        self.parts.speed
    }

    /// Acceleration and braking in mm/s².
    pub fn accel(&self) -> u64
        ensures value { result ≡ self.now.accel }
        ensures building { IsBuilding self.now }
    {
        self.parts.accel
    }

    /// Cost units for a person's ms of waiting.
    pub fn wait_weight(&self) -> u64
        ensures value { result ≡ self.now.wait_weight }
        ensures building { IsBuilding self.now }
    {
        self.parts.wait_weight
    }

    /// Cost units for a person's ms of riding.
    pub fn travel_weight(&self) -> u64
        ensures value { result ≡ self.now.travel_weight }
        ensures building { IsBuilding self.now }
    {
        self.parts.travel_weight
    }

    /// The wait in ms past which a person's ms weighs `patience_weight` more.
    pub fn patience(&self) -> u64
        ensures value { result ≡ self.now.patience }
        ensures building { IsBuilding self.now }
    {
        self.parts.patience
    }

    /// Cost units for a person's ms of waiting past the patience.
    pub fn patience_weight(&self) -> u64
        ensures value { result ≡ self.now.patience_weight }
        ensures building { IsBuilding self.now }
    {
        self.parts.patience_weight
    }

    /// The cars, in the building's order.
    pub fn cars(&self) -> &[CarSpec]
        ensures value { result.now ≡ self.now.cars }
        ensures building { IsBuilding self.now }
    {
        self.parts.cars.as_slice()
    }

    /// The travel times between the floors.
    pub fn travel(&self) -> &Travel
        ensures value { result.now ≡ self.now.travel }
        ensures building { IsBuilding self.now }
    {
        &self.parts.travel
    }
}

/// Whether some height is over 1,000,000 mm.
fn any_too_high(heights: &[u64]) -> bool
    ensures { result ≡ list_any (λ h. nat_lt 1000000 h) heights.now }
{
    heights.iter().any(|height| 1_000_000 < *height)
}

/// Whether each number is greater than the one before it.
pub fn are_rising(numbers: &[u64]) -> bool
    ensures { result ≡ is_rising numbers.now }
{
    for k in 1..numbers.len() {
        if numbers[k] <= numbers[k - 1] {
            return false;
        }
    }
    true
}

/// The first fault of the cars of a building with this many floors, which may have at most `greatest` cars,
/// and the place of the car with it, from 1.
fn first_spec_fault(floors: u32, greatest: u32, cars: &[CarSpec]) -> Option<(Fault, u32)>
    requires floors { floors ≤ 64 }
    requires cars { greatest ≤ MOST_CARS }
    ensures { result ≡ first_in (fault_of_spec floors greatest) [] cars.now 1 }
{
    for car in 0..cars.len() {
        if let Some(fault) = spec_fault(floors, greatest, &cars[..car], &cars[car]) {
            return Some((fault, 1 + car as u32));
        }
    }
    None
}

impl BuildingParts {
    ghost use Rattle.call_state.specs.BuildingParts.{building_of};

    /// A copy of the parts. It fails only where there is no memory left.
    fn copy(&self, alloc: Global) -> Result<BuildingParts, AllocError>
        ensures { IfOk result (λ parts. building_of parts ≡ building_of self.now) }
    {
        Ok(BuildingParts {
            version: self.version,
            heights: self.heights.as_slice().to_vec(alloc)?,
            speed: self.speed,
            accel: self.accel,
            wait_weight: self.wait_weight,
            travel_weight: self.travel_weight,
            patience: self.patience,
            patience_weight: self.patience_weight,
            cars: self.cars.as_slice().to_vec(alloc)?,
            travel: self.travel.copy(alloc)?,
        })
    }

    /// Whether the version, the heights, the speed and the acceleration are in their ranges.
    fn has_motion_in_range(&self) -> bool
        ensures { result ≡ has_motion_in_range (building_of self.now) }
    {
        1 <= self.version
            && self.version <= 3
            && 2 <= self.heights.len()
            && self.heights.len() <= 64
            && !any_too_high(&self.heights)
            && 100 <= self.speed
            && self.speed <= 20_000
            && 100 <= self.accel
            && self.accel <= 5_000
    }

    /// Whether the weights and the patience are in their ranges.
    fn has_weights_in_range(&self) -> bool
        ensures { result ≡ has_weights_in_range (building_of self.now) }
    {
        self.wait_weight <= 1_000
            && self.travel_weight <= 1_000
            && self.patience <= 1_000_000_000
            && self.patience_weight <= 1_000
            && (self.version != 1 || self.patience + self.patience_weight == 0)
    }

    /// The first fault of the building itself.
    fn frame_fault(&self) -> Option<Fault>
        ensures value { result ≡ fault_of_frame (building_of self.now) }
        ensures floors { IfNone result (length self.now.heights.items ≤ 64) }
        ensures square { IsTravelSquare self.now.travel }
    {
        let floors = self.travel.floors() as usize;
        let is_in_range = self.has_motion_in_range()
            && self.has_weights_in_range()
            && floors == self.heights.len()
            && !self.cars.is_empty();
        if !is_in_range {
            return Some(Fault::OutOfRange);
        }
        if !are_rising(&self.heights) {
            return Some(Fault::NotRising);
        }
        None
    }

    /// The first fault, and the place of the car with it, from 1, or 0 of the building itself.
    fn first_fault(&self) -> Option<(Fault, u32)>
        ensures value { result ≡ first_fault_of_building (building_of self.now) }
        ensures square { IsTravelSquare self.now.travel }
    {
        if let Some(fault) = self.frame_fault() {
            return Some((fault, 0));
        }
        let floors = self.heights.len() as u32;
        first_spec_fault(floors, most_cars(self.version), &self.cars)
    }
}
