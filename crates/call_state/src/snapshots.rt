//! Snapshots: where each car is, who is aboard, which calls are open.

ghost use Rattle.std.specs.Prelude.{◌≡◌, ◌↔◌, ℕ, ◌<◌, ◌≤◌, None, IsTrue, IfOk, OnOk, IfErr, IfNone, IfSome};
ghost use Rattle.std.specs.Prelude.{IsNone, MatchOption, length};
ghost use Rattle.elevator_model.specs.Snapshot.{IsAccepted, car_count, call_count, call_of, spec_of};
ghost use Rattle.elevator_model.specs.Snapshot.{state_of};
ghost use Rattle.elevator_model.specs.Tours.{is_call_for};
ghost use Rattle.elevator_model.specs.Faults.{first_fault_of_snapshot};
ghost use Rattle.call_state.specs.SnapshotParts.{AreSnapshotParts};
ghost use Rattle.call_state.specs.PartsFlaw.{Lacks};
ghost use Rattle.call_state.specs.FirstFaults.{first_of_states, first_of_groups, first_of_calls};
ghost use Rattle.call_state.specs.Refusals.{Names, SpeaksAgainst};
ghost use Rattle.call_state.specs.Possible.{HasPossible};

use crate::aboard_faults::aboard_fault;
use crate::buildings::Building;
use crate::call_faults::call_fault;
use crate::id_index::IdIndex;
use crate::possible_cars::possible_cars;
use crate::state_faults::state_fault;
use crate::whole_parts::{are_pinned_to_cars, are_unmoving, ride_in_cars};
use crate::{Fault, StateFault};
use call_sets::CarSet;
use elevator_model::{Aboard, Call, CarSpec, CarState, LATEST_SNAPSHOT};
use std::alloc::{AllocError, Global};
use std::marker::Model;

/// What a snapshot is made of.
#[derive(Drop)]
pub struct SnapshotParts {
    /// 1 or 2: only version 2 knows moving cars.
    pub version: u8,
    pub building: Building,
    /// The moment that the snapshot shows, in ms.
    pub now: u64,
    /// One state per car, in the building's order.
    pub cars: Vec<CarState>,
    pub aboard: Vec<Aboard>,
    pub calls: Vec<Call>,
}

/// What keeps the parts of a snapshot from being tested for faults.
#[derive(Clone, Copy)]
pub enum PartsFlaw {
    /// The version is neither 1 nor 2.
    Version,
    /// The moment is over 10^9 ms.
    Moment,
    /// There are more or fewer states than cars.
    StateCount,
    /// A car is moving, which version 1 does not know.
    MovingCar,
    /// A group rides in a car that the building lacks.
    CarOfGroup,
    /// A call is pinned to a car that the building lacks.
    PinnedCar,
}

impl SnapshotParts {
    ghost use Rattle.call_state.specs.SnapshotParts.{snapshot_of};

    /// Whether the parts fit together, so that they can be tested for faults: the version is 1 or 2, the
    /// moment is at most 10^9, each car has a state that the version knows, and each car that a group or a
    /// pin names is one of the building.
    pub fn are_whole(&self) -> bool
        ensures { IsTrue result ↔ AreSnapshotParts (snapshot_of self.entry.now) }
    {
        self.flaw().is_none()
    }

    /// The first condition of `are_whole` that does not hold.
    pub fn flaw(&self) -> Option<PartsFlaw>
        ensures whole { IsNone result ↔ AreSnapshotParts (snapshot_of self.entry.now) }
        ensures flaw { IfSome result (Lacks (snapshot_of self.entry.now)) }
    {
        let cars = self.building.cars().len();
        if self.version < 1 || 2 < self.version {
            return Some(PartsFlaw::Version);
        }
        if LATEST_SNAPSHOT < self.now {
            return Some(PartsFlaw::Moment);
        }
        if self.cars.len() != cars {
            return Some(PartsFlaw::StateCount);
        }
        if self.version == 1 && !are_unmoving(&self.cars) {
            return Some(PartsFlaw::MovingCar);
        }
        if !ride_in_cars(&self.aboard, cars) {
            return Some(PartsFlaw::CarOfGroup);
        }
        if !are_pinned_to_cars(&self.calls, cars) {
            return Some(PartsFlaw::PinnedCar);
        }
        None
    }

    /// A copy of the parts. It fails only where there is no memory left.
    fn copy(&self, alloc: Global) -> Result<SnapshotParts, AllocError>
        ensures { IfOk result (λ parts. snapshot_of parts ≡ snapshot_of self.entry.now) }
    {
        let cars = self.cars.as_slice().to_vec(alloc)?;
        let aboard = self.aboard.as_slice().to_vec(alloc)?;
        let calls = self.calls.as_slice().to_vec(alloc)?;
        let building = self.building.copy(alloc)?;
        Ok(SnapshotParts {
            version: self.version,
            building,
            now: self.now,
            cars,
            aboard,
            calls,
        })
    }

    /// The first fault of the cars' states, and the place of the car with it, from 1.
    fn first_state_fault(&self) -> Option<(Fault, u32)>
        requires { AreSnapshotParts (snapshot_of self.now) }
        ensures { result ≡ first_of_states (snapshot_of self.entry.now) }
    {
        for car in 0..self.building.cars().len() {
            let state = self.cars[car];
            if let Some(fault) = state_fault(&self.building, self.now, car as u32, state) {
                return Some((fault, 1 + car as u32));
            }
        }
        None
    }

    /// The first fault of the groups aboard, and the place of the group with it, counted on from the cars.
    fn first_aboard_fault(&self) -> Option<(Fault, u32)>
        requires { AreSnapshotParts (snapshot_of self.now) }
        ensures value { result ≡ first_of_groups (snapshot_of self.entry.now) }
        ensures few { IfNone result (length (snapshot_of self.entry.now).aboard ≤ 1024) }
    {
        let first = 1 + self.building.cars().len() as u32;
        for k in 0..self.aboard.len() {
            let (before, group) = (&self.aboard[..k], &self.aboard[k]);
            if let Some(fault) = aboard_fault(&self.building, self.now, &self.cars, before, group) {
                return Some((fault, first + k as u32));
            }
        }
        None
    }

    /// The first fault of the calls, and the place of the call with it, counted on from the cars and the
    /// groups aboard.
    fn first_call_fault(&self) -> Option<(Fault, u32)>
        requires parts { AreSnapshotParts (snapshot_of self.now) }
        requires few { length (snapshot_of self.now).aboard ≤ 1024 }
        ensures { result ≡ first_of_calls (snapshot_of self.entry.now) }
    {
        let first = 1 + self.building.cars().len() as u32 + self.aboard.len() as u32;
        for j in 0..self.calls.len() {
            let (before, call) = (&self.calls[..j], &self.calls[j]);
            if let Some(fault) = call_fault(&self.building, self.now, &self.aboard, before, call) {
                return Some((fault, first + j as u32));
            }
        }
        None
    }

    /// The first fault, and the place of its item.
    fn first_fault(&self) -> Option<(Fault, u32)>
        requires { AreSnapshotParts (snapshot_of self.now) }
        ensures { result ≡ first_fault_of_snapshot (snapshot_of self.entry.now) }
    {
        if let Some(found) = self.first_state_fault() {
            return Some(found);
        }
        if let Some(found) = self.first_aboard_fault() {
            return Some(found);
        }
        self.first_call_fault()
    }
}

/// A snapshot that keeps the rules: each car can deliver those aboard, and each open call has a car that
/// can take it.
#[derive(Drop)]
pub struct Snapshot {
    parts: SnapshotParts,
    ids: IdIndex,
    /// The possible cars of each call.
    possible: Vec<CarSet>,
}

impl Model for Snapshot {
    ghost use Rattle.std.specs.Prelude.{◌≡◌, map};
    ghost use Rattle.elevator_model.specs.declared.Call.{Call};
    ghost use Rattle.elevator_model.specs.Snapshot.{Snapshot as Record, IsAccepted};
    ghost use Rattle.call_state.specs.SnapshotParts.{snapshot_of};
    ghost use Rattle.call_state.specs.Possible.{ArePossible};

    ghost Value = { Record };

    ghost view = { λ s. snapshot_of s.parts };

    ghost invariant = { λ s. IsAccepted (snapshot_of s.parts)
        × (s.ids ≡ map (λ (x : Call). x.id) s.parts.calls.items)
        × ArePossible s.parts.building s.parts.calls.items s.possible.items };
}

impl Snapshot {
    ghost use Rattle.call_state.specs.SnapshotParts.{snapshot_of};

    /// The snapshot with these parts. Each car that they name is one of the building, each car has a state,
    /// and only version 2 has moving cars.
    ///
    /// It fails with the first fault, through the cars, the groups aboard and the calls, exactly where the
    /// parts do not keep the rules, and with `NoMemory` where there is no memory left.
    pub fn build(alloc: Global, parts: SnapshotParts) -> Result<Snapshot, StateFault>
        requires { AreSnapshotParts (snapshot_of parts) }
        ensures value { IfOk result (λ snapshot. snapshot ≡ snapshot_of parts) }
        ensures faultless { OnOk result (first_fault_of_snapshot (snapshot_of parts) ≡ None) }
        ensures accepted { OnOk result (IsAccepted (snapshot_of parts)) }
        ensures fault { IfErr result (Names (first_fault_of_snapshot (snapshot_of parts))) }
        ensures refused { IfErr result (SpeaksAgainst (IsAccepted (snapshot_of parts))) }
    {
        if let Some((fault, item)) = parts.first_fault() {
            return Err(StateFault::Bad { fault, item });
        }
        // For the proof: a reader of the building tells that it keeps its rules, which the snapshot's rules
        // are to hold.
        let _version = parts.building.version();
        Ok(Snapshot::of_accepted(alloc, parts)?)
    }

    /// The snapshot with these parts, which are known to keep the rules, so that nothing is judged again.
    /// It fails only where there is no memory left.
    pub fn of_accepted(alloc: Global, parts: SnapshotParts) -> Result<Snapshot, AllocError>
        requires { IsAccepted (snapshot_of parts) }
        ensures { IfOk result (λ snapshot. snapshot ≡ snapshot_of parts) }
    {
        let ids = IdIndex::of_calls(alloc, &parts.calls)?;
        let possible = possible_cars(alloc, &parts.building, &parts.calls)?;
        Ok(Snapshot {
            parts,
            ids,
            possible,
        })
    }

    /// The index of the open call with this id, and `None` exactly where no call has it.
    pub fn call_of(&self, id: u32) -> Option<u32>
        ensures call { MatchOption result ((j : ℕ) → j < call_count self.now
            → (call_of self.now j).id ≡ id → ⊥) (λ j. (j < call_count self.now)
            × ((call_of self.now j).id ≡ id)) }
        ensures accepted { IsAccepted self.now }
    {
        match self.ids.place_of(id) {
            Some(place) => Some(place as u32),
            None => None,
        }
    }

    /// A copy of the snapshot. It fails only where there is no memory left.
    pub fn copy(&self, alloc: Global) -> Result<Snapshot, AllocError>
        ensures { IfOk result (λ snapshot. snapshot ≡ self.now) }
    {
        Snapshot::of_accepted(alloc, self.parts.copy(alloc)?)
    }

    /// The building.
    pub fn building(&self) -> &Building
        ensures value { result.now ≡ self.now.building }
        ensures accepted { IsAccepted self.now }
    {
        &self.parts.building
    }

    /// 1 or 2.
    pub fn version(&self) -> u8
        ensures value { result ≡ self.now.version }
        ensures accepted { IsAccepted self.now }
    {
        self.parts.version
    }

    /// The moment that the snapshot shows, in ms.
    pub fn now(&self) -> u64
        ensures value { result ≡ self.now.moment }
        ensures accepted { IsAccepted self.now }
    {
        self.parts.now
    }

    /// The state of a car.
    pub fn car(&self, c: u32) -> CarState
        requires { c < car_count self.now }
        ensures value { result ≡ state_of self.now c }
        ensures accepted { IsAccepted self.now }
    {
        self.parts.cars[c as usize]
    }

    /// A car of the building.
    pub fn spec(&self, c: u32) -> &CarSpec
        requires { c < car_count self.now }
        ensures value { result.now ≡ spec_of self.now c }
        ensures accepted { IsAccepted self.now }
    {
        &self.parts.building.cars()[c as usize]
    }

    /// The groups aboard, in the snapshot's order.
    pub fn aboard(&self) -> &[Aboard]
        ensures value { result.now ≡ self.now.aboard }
        ensures accepted { IsAccepted self.now }
    {
        self.parts.aboard.as_slice()
    }

    /// The open calls, in the snapshot's order.
    pub fn calls(&self) -> &[Call]
        ensures value { result.now ≡ self.now.calls }
        ensures accepted { IsAccepted self.now }
    {
        self.parts.calls.as_slice()
    }

    /// The cars that may take a call: of a pinned call the pin alone, else all that can take it.
    pub fn possible(&self, call: u32) -> CarSet
        requires { call < call_count self.now }
        ensures cars { HasPossible self.now call (car_count self.now) result }
        ensures accepted { IsAccepted self.now }
    {
        self.possible[call as usize]
    }

    /// Whether the car may take the call: never so where the snapshot lacks the call or the building the car.
    pub fn may_take(&self, car: u32, call: u32) -> bool
        ensures value { result ≡ is_call_for self.now car call }
        ensures accepted { IsAccepted self.now }
    {
        match self.possible.get(call as usize) {
            Some(cars) => cars.contains(car),
            None => false,
        }
    }
}
