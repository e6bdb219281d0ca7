//! The floors that a car serves.

ghost use Rattle.std.specs.Prelude.{◌≡◌, ℕ, ◌<◌, ◌==◌, ◌&&◌, ◌||◌};
ghost use Rattle.call_sets.specs.Counting.{has};
ghost use Rattle.elevator_model.specs.Snapshot.{car_count, serves};

use call_sets::FloorSet;
use call_state::Snapshot;

/// The set, and the floor in it where it passes.
pub(crate) fn with_if(set: FloorSet, floor: u32, passes: bool) -> FloorSet
    requires { floor < 64 }
    ensures { (k : ℕ) → has result k ≡ (has set k || ((k == floor) && passes)) }
{
    if passes { set.with(floor) } else { set }
}

/// The floors that a car serves.
pub(crate) fn floors_served(snapshot: &Snapshot, car: u32) -> FloorSet
    requires { car < car_count snapshot.now }
    ensures { (g : ℕ) → has result g ≡ serves snapshot.now.building car g }
{
    let floors = snapshot.building().heights().len() as u32;
    FloorSet::lowest(floors).intersection(snapshot.spec(car).serves)
}
