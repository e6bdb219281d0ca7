//! The floors where a car may stop first.

ghost use Rattle.std.specs.Prelude.{◌≡◌, ℕ, ◌<◌, ◌==◌, ◌&&◌, ◌||◌};
ghost use Rattle.call_sets.specs.Counting.{has};
ghost use Rattle.elevator_model.specs.Snapshot.{car_count, state_of, may_stop_first, is_open as is_open_lem};
ghost use Rattle.elevator_model.specs.declared.CarState.{CarState};

use call_sets::FloorSet;
use call_state::{CarState, Snapshot, is_open};

/// The set, and the floor in it where it passes.
fn with_if(set: FloorSet, floor: u32, passes: bool) -> FloorSet
    requires { floor < 64 }
    ensures { (k : ℕ) → has result k ≡ (has set k || ((k == floor) && passes)) }
{
    if passes { set.with(floor) } else { set }
}

/// The floors that are open for a moving car.
fn floors_open(snapshot: &Snapshot, car: u32, state: CarState) -> FloorSet
    ensures { (g : ℕ) → g < 64
        → has result g ≡ is_open_lem snapshot.now.building car snapshot.now.moment state g }
{
    let mut set = FloorSet::empty();
    for floor in 0..64 {
        let open = is_open(snapshot.building(), car, snapshot.now(), state, floor);
        set = with_if(set, floor, open);
    }
    set
}

/// The floors where a car may make its first stop, if it serves them.
pub fn first_floors(snapshot: &Snapshot, car: u32) -> FloorSet
    requires { car < car_count snapshot.now }
    ensures { (g : ℕ) → g < 64 → has result g ≡ may_stop_first snapshot.now.building car
        snapshot.now.moment (state_of snapshot.now car) g }
{
    let state = snapshot.car(car);
    match state {
        CarState::Idle { .. } => FloorSet::lowest(64),
        CarState::Coming { floor, .. } => FloorSet::empty().with(floor),
        CarState::Moving { .. } => floors_open(snapshot, car, state),
    }
}
