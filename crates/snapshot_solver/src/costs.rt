//! What calls and groups aboard cost at least, in cost units.

ghost use Rattle.std.specs.Prelude.{◌≡◌, ◌<◌, ◌≤◌, length};
ghost use Rattle.elevator_model.specs.Snapshot.{car_count, call_count, state_of, moment_of};
ghost use Rattle.search_model.specs.Bounds.{cost_if_alone};
ghost use Rattle.search_model.specs.Solving.{least_lone_cost, straight_cost};
ghost use Rattle.search_model.specs.Sums.{lesser_of};
ghost use Rattle.snapshot_solver.specs.Starts.{aboard_cost};

use call_state::Snapshot;
use elevator_model::{MOST_CALL_COST, MOST_COST};
use tour_rules::riding::{cost_of_call, cost_of_group};

/// One group aboard costs at most this much, in cost units: 8 persons, weight 1,000, over `MOMENT_LIMIT`.
const MOST_GROUP_COST: u64 = 800_000_000_000_000;

/// The cost of a call if it boarded at the moment from which the car's tour is timed and rode straight to its
/// destination.
fn lone_cost_of(snapshot: &Snapshot, call: u32, car: u32) -> u64
    requires call { call < call_count snapshot.now }
    requires car { car < car_count snapshot.now }
    ensures cost { result ≡ cost_if_alone snapshot.now call (moment_of (state_of snapshot.now car)) }
    ensures bounded { result ≤ MOST_CALL_COST }
{
    let building = snapshot.building();
    let rider = &snapshot.calls()[call as usize];
    let boarded = snapshot.car(car).moment();
    let ride = building.travel().time(rider.origin, rider.destination);
    cost_of_call(building, rider, boarded, boarded + ride)
}

/// The lesser of the least cost so far, if there is one, and another cost.
fn lesser(least: Option<u64>, cost: u64) -> u64
    ensures { result ≡ lesser_of least cost }
{
    match least {
        Some(least) => least.min(cost),
        None => cost,
    }
}

/// The least cost of a call, over its possible cars, if it boarded at the moment from which the car's tour is
/// timed and rode straight to its destination.
pub(crate) fn least_lone_cost_of(snapshot: &Snapshot, call: u32) -> u64
    requires { call < call_count snapshot.now }
    ensures cost { result ≡ least_lone_cost snapshot.now call }
    ensures bounded { result ≤ MOST_CALL_COST }
{
    let possible = snapshot.possible(call);
    let mut least = None;
    for car in 0..snapshot.building().cars().len() as u32 {
        if possible.contains(car) {
            least = Some(lesser(least, lone_cost_of(snapshot, call, car)));
        }
    }
    least.unwrap_or(0)
}

/// The cost of a group aboard if its car went straight to its destination.
fn straight_cost_of(snapshot: &Snapshot, group: u32) -> u64
    requires { group < length snapshot.now.aboard }
    ensures cost { result ≡ straight_cost snapshot.now group }
    ensures bounded { result ≤ MOST_GROUP_COST }
{
    let building = snapshot.building();
    let rider = &snapshot.aboard()[group as usize];
    let state = snapshot.car(rider.car);
    let ride = building.travel().time(state.floor(), rider.destination);
    cost_of_group(building, rider, state.moment() + ride)
}

/// The cost of the groups aboard a car if it went straight to each destination.
pub(crate) fn aboard_cost_of(snapshot: &Snapshot, car: u32) -> u64
    ensures cost { result ≡ aboard_cost snapshot.now car }
    ensures bounded { result ≤ MOST_COST }
{
    let groups = snapshot.aboard();
    let mut cost = 0;
    for group in 0..groups.len() {
        if groups[group].car == car {
            cost += straight_cost_of(snapshot, group as u32);
        }
    }
    cost
}
