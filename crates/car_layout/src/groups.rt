//! Where the groups aboard a car go.

ghost use Rattle.std.specs.Prelude.{◌≡◌, ℕ, ◌<◌, ◌≤◌, ◌==◌, ◌&&◌, length, slice_index};
ghost use Rattle.call_sets.specs.Counting.{has, sum_where};
ghost use Rattle.elevator_model.specs.Snapshot.{car_count};
ghost use Rattle.car_layout.specs.Layouts.{any_group_to, persons_to as persons_to_lem};
ghost use Rattle.car_layout.specs.Layouts.{moments_to as moments_to_lem};

use crate::floors::with_if;
use call_sets::FloorSet;
use call_state::{Aboard, Snapshot};

/// The floors to which groups aboard the car go.
pub(crate) fn destinations(snapshot: &Snapshot, car: u32) -> FloorSet
    ensures { (g : ℕ) → has result g ≡ any_group_to snapshot.now.aboard car g }
{
    let groups = snapshot.aboard();
    let mut set = FloorSet::empty();
    for k in 0..groups.len() {
        set = with_if(set, groups[k].destination, groups[k].car == car);
    }
    set
}

/// Whether the group is aboard the car and goes to the floor.
fn goes_to(group: &Aboard, car: u32, floor: u32) -> bool
    ensures { result ≡ ((group.now.car == car) && (group.now.destination == floor)) }
{
    group.car == car && group.destination == floor
}

/// Those aboard the car who go to one floor: how many persons, and the sum of the moments in ms at which they
/// boarded.
#[derive(Clone, Copy)]
struct Riders {
    persons: u32,
    moments: u64,
}

/// Those aboard the car who go to the floor.
fn riders_to(snapshot: &Snapshot, car: u32, floor: u32) -> Riders
    requires { car < car_count snapshot.now }
    ensures persons { result.persons ≡ persons_to_lem snapshot.now.aboard car floor }
    ensures moments { result.moments ≡ moments_to_lem snapshot.now.aboard car floor }
    ensures few { result.persons ≤ 64 }
    ensures bounded { result.moments ≤ 6400000000000 }
{
    let groups = snapshot.aboard();
    let mut persons = 0;
    let mut moments = 0;
    for k in 0..groups.len() {
        if goes_to(&groups[k], car, floor) {
            persons += groups[k].persons;
            moments += groups[k].persons as u64 * groups[k].boarded;
        }
    }
    Riders { persons, moments }
}

/// Lays out those aboard for each floor to which they go: the persons, and the sums of their moments.
pub(crate) fn lay_out_riders(
    snapshot: &Snapshot,
    car: u32,
    persons: &mut [u32],
    moments: &mut [u64],
)
    requires car { car < car_count snapshot.now }
    requires persons { length persons.old ≡ 64 }
    requires moments { length moments.old ≡ 64 }
    ensures persons_size { length persons.new ≡ 64 }
    ensures moments_size { length moments.new ≡ 64 }
    ensures persons { (g : ℕ) → g < 64
        → slice_index persons.new g ≡ persons_to_lem snapshot.now.aboard car g }
    ensures moments { (g : ℕ) → g < 64
        → slice_index moments.new g ≡ moments_to_lem snapshot.now.aboard car g }
{
    for floor in 0..64 {
        let riders = riders_to(snapshot, car, floor);
        persons[floor as usize] = riders.persons;
        moments[floor as usize] = riders.moments;
    }
}
