//! Where a car is in its tour, for the rules: who has boarded, who is carried.

ghost use Rattle.std.specs.Prelude.{Bool, ◌≡◌, ◌≢◌, ◌<◌, ◌≤◌, ◌+◌, ◌*◌, ◌&&◌, ◌||◌, not, false, ℕ, ◌==◌};
ghost use Rattle.std.specs.Prelude.{length};
ghost use Rattle.call_sets.specs.Counting.{has, any_below, sum_where};
ghost use Rattle.elevator_model.specs.Snapshot.{car_count, call_count};
ghost use Rattle.elevator_model.specs.Tours.{Progress, rider_count, destination_of, persons_where, start_of};
ghost use Rattle.elevator_model.specs.Tours.{stop_at, gets_off};
ghost use Rattle.tour_rules.specs.Leaving.{is_call_off};
ghost use Rattle.tour_rules.specs.Places.{heads, call_in, group_in, call_heads, group_heads, Tracks};
ghost use Rattle.tour_rules.specs.Places.{IsBoardSet};

use call_sets::{CallSet, FloorSet};
use call_state::{Aboard, Call, Snapshot};
use elevator_model::MOST_CALLS;

/// Destinations, as seen from a floor.
#[derive(Clone, Copy)]
pub enum Heading {
    /// The floor itself.
    To(u32),
    /// All other floors.
    Elsewhere(u32),
    /// The floors below it.
    Below(u32),
    /// The floors above it.
    Above(u32),
    /// All floors.
    Anywhere,
}

impl Heading {
    fn includes(self, destination: u32) -> bool
        ensures { result ≡ heads self destination }
    {
        match self {
            Heading::To(floor) => destination == floor,
            Heading::Elsewhere(floor) => destination != floor,
            Heading::Below(floor) => destination < floor,
            Heading::Above(floor) => destination > floor,
            Heading::Anywhere => true,
        }
    }
}

/// How far a car is in its tour, but for the times.
#[derive(Clone, Copy)]
pub struct CarPlace {
    /// Whether it has begun a stop.
    pub begun: bool,
    /// The floor of its last stop, or where it stands, comes to or comes from.
    pub floor: u32,
    /// The calls that boarded.
    pub boarded: CallSet,
    /// The calls carried.
    pub carried: CallSet,
    /// The floors where it stopped. A group aboard gets off at the first stop at its destination.
    pub visited: FloorSet,
}

/// Whether a call of the set has such a destination.
pub fn any_call_heads(calls: &[Call], set: CallSet, heading: Heading) -> bool
    requires { length calls.now ≤ MOST_CALLS }
    ensures { result ≡ any_below (length calls.now) (call_heads calls.now set heading) }
{
    for (j, call) in calls.iter().enumerate() {
        if set.contains(j as u32) && heading.includes(call.destination) {
            return true;
        }
    }
    false
}

/// Whether the car's group is still aboard after stops at these floors.
pub fn is_carried(group: &Aboard, car: u32, visited: FloorSet) -> bool
    requires { group.now.destination < 64 }
    ensures { result ≡ (group.now.car == car) && not (has visited group.now.destination) }
{
    group.car == car && !visited.contains(group.destination)
}

/// Whether a group that is still aboard has such a destination.
fn any_group_heads(groups: &[Aboard], car: u32, visited: FloorSet, heading: Heading) -> bool
    requires { (k : ℕ) → k < length groups.now → (group_in groups.now k).destination < 64 }
    ensures { result ≡ any_below (length groups.now) (group_heads groups.now car visited heading) }
{
    for group in groups {
        if is_carried(group, car, visited) && heading.includes(group.destination) {
            return true;
        }
    }
    false
}

/// The persons of the calls of the set with such a destination.
fn persons_of_calls(calls: &[Call], set: CallSet, heading: Heading) -> u32
    requires few { length calls.now ≤ MOST_CALLS }
    requires small { (j : ℕ) → j < length calls.now → (call_in calls.now j).persons ≤ 8 }
    ensures value { result
        ≡ sum_where (length calls.now) (call_heads calls.now set heading) (λ j. (call_in calls.now j).persons) }
    ensures small { result ≤ 1024 }
{
    let mut persons = 0;
    for (j, call) in calls.iter().enumerate() {
        if set.contains(j as u32) && heading.includes(call.destination) {
            persons += call.persons;
        }
    }
    persons
}

/// The persons of the groups that are still aboard and have such a destination.
fn persons_of_groups(groups: &[Aboard], car: u32, visited: FloorSet, heading: Heading) -> u32
    requires floors { (k : ℕ) → k < length groups.now → (group_in groups.now k).destination < 64 }
    requires few { sum_where (length groups.now) (λ k. (group_in groups.now k).car == car)
        (λ k. (group_in groups.now k).persons) ≤ 64 }
    ensures value { result
        ≡ sum_where (length groups.now) (group_heads groups.now car visited heading)
        (λ k. (group_in groups.now k).persons) }
    ensures small { result ≤ 64 }
{
    let mut persons = 0;
    for group in groups {
        if is_carried(group, car, visited) && heading.includes(group.destination) {
            persons += group.persons;
        }
    }
    persons
}

/// The calls of the set whose destination is this floor.
fn calls_bound_for(calls: &[Call], set: CallSet, floor: u32) -> CallSet
    requires { length calls.now ≤ MOST_CALLS }
    ensures each { (j : ℕ) → j < length calls.now
        → has result j ≡ (has set j && ((call_in calls.now j).destination == floor)) }
    ensures only { (j : ℕ) → length calls.now ≤ j → has result j ≡ false }
{
    let mut bound = CallSet::empty();
    for (j, call) in calls.iter().enumerate() {
        if set.contains(j as u32) && call.destination == floor {
            bound = bound.with(j as u32);
        }
    }
    bound
}

/// The calls carried that get off at a next stop at this floor.
pub fn calls_off(snapshot: &Snapshot, place: &CarPlace, floor: u32) -> CallSet
    ensures each { (j : ℕ) → j < call_count snapshot.now
        → has result j ≡ is_call_off snapshot.now place.now.carried floor j }
    ensures only { (j : ℕ) → call_count snapshot.now ≤ j → has result j ≡ false }
    ensures off { (c : ℕ) (p : Progress) → Tracks snapshot.now c place.now p
        → (j : ℕ) → j < call_count snapshot.now → has result j ≡ gets_off snapshot.now p floor j }
{
    calls_bound_for(snapshot.calls(), place.carried, floor)
}

/// Whether a rider with such a destination is carried.
pub fn any_carried(snapshot: &Snapshot, car: u32, place: &CarPlace, heading: Heading) -> bool
    ensures { (p : Progress) → Tracks snapshot.now car place.now p → result
        ≡ any_below (rider_count snapshot.now) (λ r. p.carried r && heads heading (destination_of snapshot.now r)) }
{
    any_call_heads(snapshot.calls(), place.carried, heading)
        || any_group_heads(snapshot.aboard(), car, place.visited, heading)
}

/// The persons carried to such a destination.
pub fn persons_carried(snapshot: &Snapshot, car: u32, place: &CarPlace, heading: Heading) -> u32
    requires { car < car_count snapshot.now }
    ensures value { (p : Progress) → Tracks snapshot.now car place.now p → result
        ≡ persons_where snapshot.now (λ r. p.carried r && heads heading (destination_of snapshot.now r)) }
    ensures small { result ≤ 1088 }
{
    persons_of_calls(snapshot.calls(), place.carried, heading)
        + persons_of_groups(snapshot.aboard(), car, place.visited, heading)
}

/// The persons of the calls that board.
pub fn persons_boarding(snapshot: &Snapshot, boards: CallSet) -> u32
    ensures value { (test : ℕ → Bool) → IsBoardSet snapshot.now boards test
        → result ≡ persons_where snapshot.now test }
    ensures small { result ≤ 1024 }
{
    persons_of_calls(snapshot.calls(), boards, Heading::Anywhere)
}

/// A car at the start of its tour.
pub fn at_start(snapshot: &Snapshot, car: u32) -> CarPlace
    requires { car < car_count snapshot.now }
    ensures { Tracks snapshot.now car result (start_of snapshot.now car) }
{
    CarPlace {
        begun: false,
        floor: snapshot.car(car).floor(),
        boarded: CallSet::empty(),
        carried: CallSet::empty(),
        visited: FloorSet::empty(),
    }
}

/// The car after a stop at this floor, where these calls board.
pub fn after_stop(snapshot: &Snapshot, place: &CarPlace, floor: u32, boards: CallSet) -> CarPlace
    requires { floor < 64 }
    ensures stops { (c : ℕ) (p : Progress) (test : ℕ → Bool) → Tracks snapshot.now c place.now p
        → IsBoardSet snapshot.now boards test
        → Tracks snapshot.now c result (stop_at snapshot.now c p floor test) }
    ensures floor { result.floor ≡ floor }
{
    let staying = place.carried.minus(calls_off(snapshot, place, floor));
    CarPlace {
        begun: true,
        floor,
        boarded: place.boarded.union(boards),
        carried: staying.union(boards),
        visited: place.visited.with(floor),
    }
}
