//! What is refused, and at which item. Which fault comes first is said by the definitions, whose worked cases
//! have each kind; here the answers come from the builds.

use crate::plans::cases::LOW_CAR;
use call_sets::FloorSet;
use call_state::{
    Building, BuildingParts, Call, CarSpec, CarState, Fault, Snapshot, SnapshotParts, StateFault,
    Travel,
};
use case_kit::{is_so_of, snapshot_in};
use std::alloc::{AllocError, Global};

fn bad(fault: Fault, item: u32) -> Option<StateFault> {
    Some(StateFault::Bad { fault, item })
}

/// What three floors are refused for where a ride between the lowest and the highest takes `direct` ms, and
/// one over the floor between them 2 ms.
fn fault_of_times(alloc: Global, direct: u64) -> Option<StateFault> {
    match [0, 1, direct, 1, 0, 1, direct, 1, 0].to_vec(alloc) {
        Ok(times) => Travel::build(3, times).err(),
        Err(_) => Some(StateFault::NoMemory),
    }
}

#[test]
fn a_shorter_way_over_a_third_floor_is_refused(rt: HostRuntime) {
    assert!(rt; fault_of_times(rt.alloc(), 3) == bad(Fault::NoTravelSquare, 0));
    assert!(rt; fault_of_times(rt.alloc(), 2).is_none());
}

/// A car for this many persons. Bit `f` of `serves` is floor `f`.
fn car(id: u32, capacity: u32, serves: u64) -> CarSpec {
    CarSpec {
        id,
        capacity,
        opening: 1000,
        closing: 1000,
        boarding: 500,
        alighting: 500,
        serves: FloorSet::from_bits(serves),
    }
}

/// Three floors 4000 mm apart with these cars.
fn three_floors(alloc: Global, cars: &[CarSpec]) -> Result<BuildingParts, StateFault> {
    let times = [0, 4000, 6000, 4000, 0, 4000, 6000, 4000, 0].to_vec(alloc)?;
    Ok(BuildingParts {
        version: 1,
        heights: [0, 4000, 8000].to_vec(alloc)?,
        speed: 2000,
        accel: 1000,
        wait_weight: 1,
        travel_weight: 1,
        patience: 0,
        patience_weight: 0,
        cars: cars.to_vec(alloc)?,
        travel: Travel::build(3, times)?,
    })
}

/// What three floors with these cars are refused for.
fn fault_of_cars(alloc: Global, cars: &[CarSpec]) -> Option<StateFault> {
    match three_floors(alloc, cars) {
        Ok(parts) => Building::build(alloc, parts).err(),
        Err(fault) => Some(fault),
    }
}

#[test]
fn cars_are_refused(rt: HostRuntime) {
    let too_large = fault_of_cars(rt.alloc(), &[car(1, 8, 7), car(2, 65, 7)]);
    assert!(rt; too_large == bad(Fault::OutOfRange, 2));
    let fourth_floor = fault_of_cars(rt.alloc(), &[car(2, 8, 9), car(1, 8, 7)]);
    assert!(rt; fourth_floor == bad(Fault::NoSuchFloor, 1));
}

/// The parts of the snapshot, with other states of its cars and other calls.
fn changed(
    alloc: Global,
    snapshot: &Snapshot,
    states: &[CarState],
    calls: &[Call],
) -> Result<SnapshotParts, AllocError> {
    // The building is copied last, so that nothing that fails has to let it go.
    Ok(SnapshotParts {
        version: 2,
        now: snapshot.now(),
        cars: states.to_vec(alloc)?,
        aboard: snapshot.aboard().to_vec(alloc)?,
        calls: calls.to_vec(alloc)?,
        building: snapshot.building().copy(alloc)?,
    })
}

/// What these parts are refused for. None where they are accepted, or have another number of cars.
fn fault_of_parts(alloc: Global, parts: SnapshotParts) -> Option<StateFault> {
    if parts.are_whole() {
        Snapshot::build(alloc, parts).err()
    } else {
        None
    }
}

/// The same of the snapshot with other states of its cars and other calls.
fn fault_with(
    alloc: Global,
    snapshot: &Snapshot,
    states: &[CarState],
    calls: &[Call],
) -> Option<StateFault> {
    match changed(alloc, snapshot, states, calls) {
        Ok(parts) => fault_of_parts(alloc, parts),
        Err(AllocError) => Some(StateFault::NoMemory),
    }
}

fn call_to(destination: u32) -> Call {
    Call {
        id: 1,
        origin: 0,
        destination,
        persons: 1,
        released: 0,
        pin: None,
    }
}

fn coming(floor: u32) -> CarState {
    CarState::Coming {
        floor,
        arrives: 5000,
    }
}

/// Whether the snapshot with a person aboard is refused so with another state of its car and another call.
fn is_refused(alloc: Global, state: CarState, call: Call, fault: Option<StateFault>) -> bool {
    is_so_of(
        snapshot_in(alloc, LOW_CAR.as_bytes()),
        &|snapshot: &Snapshot| -> bool { fault_with(alloc, snapshot, &[state], &[call]) == fault },
    )
}

#[test]
fn items_of_snapshots_are_refused(rt: HostRuntime) {
    let lacks_floor = bad(Fault::NotServed, 1);
    assert!(rt; is_refused(rt.alloc(), coming(3), call_to(2), lacks_floor));
    let stays = bad(Fault::OriginIsDestination, 3);
    assert!(rt; is_refused(rt.alloc(), coming(1), call_to(0), stays));
}
