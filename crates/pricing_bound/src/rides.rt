//! What rides cost, if the car went straight to each destination.

ghost use Rattle.std.specs.Prelude.{◌≡◌, ◌+◌, ◌<◌, ◌≤◌, Some, true, length};
ghost use Rattle.elevator_model.specs.Building.{floor_count};
ghost use Rattle.elevator_model.specs.Partial.{Course};
ghost use Rattle.elevator_model.specs.Snapshot.{call_count, car_count};
ghost use Rattle.elevator_model.specs.Travel.{time_between};
ghost use Rattle.partial_tours.specs.Courses.{reached};
ghost use Rattle.partial_tours.specs.PartialTour.{course};
ghost use Rattle.search_model.specs.Bounds.{cost_if_alone, cost_if_straight};

use call_state::Snapshot;
use elevator_model::{LATEST_MOMENT, MOMENT_LIMIT, MOST_CALL_COST};
use partial_tours::Prefix;
use tour_rules::riding::{cost_of_call, cost_of_group};

/// The moment in ms at which a car would be at a floor that goes there straight from a floor where its doors
/// are open at the moment `opened`.
pub(crate) fn arrival_from(snapshot: &Snapshot, from: u32, opened: u64, to: u32) -> u64
    requires from { from < floor_count snapshot.now.building }
    requires to { to < floor_count snapshot.now.building }
    requires early { opened < LATEST_MOMENT }
    ensures value { result ≡ opened + time_between snapshot.now.building.travel from to }
    ensures early { result ≤ MOMENT_LIMIT }
{
    opened + snapshot.building().travel().time(from, to)
}

/// The moment in ms at which the car would be at a floor if it went there straight from its last stop.
pub(crate) fn straight_arrival(snapshot: &Snapshot, prefix: &Prefix, to: u32) -> u64
    requires same { snapshot.now ≡ prefix.now.snapshot }
    requires to { to < floor_count snapshot.now.building }
    ensures value { (x : Course) → course prefix.now ≡ Some x → result
        ≡ (reached prefix.now.snapshot prefix.now.car x).opened + time_between prefix.now.snapshot.building.travel
        (reached prefix.now.snapshot prefix.now.car x).floor to }
    ensures early { result ≤ MOMENT_LIMIT }
{
    arrival_from(snapshot, prefix.floor(), prefix.opened(), to)
}

/// The cost in cost units of a call that boarded, if the car went straight to its destination.
pub(crate) fn straight_cost_of_call(snapshot: &Snapshot, prefix: &Prefix, call: u32) -> u64
    requires same { snapshot.now ≡ prefix.now.snapshot }
    requires call { call < call_count snapshot.now }
    requires boarded { (x : Course) × (course prefix.now ≡ Some x)
        × ((reached prefix.now.snapshot prefix.now.car x).boarded call ≡ true) }
    ensures cost { (x : Course) → course prefix.now ≡ Some x → result
        ≡ cost_if_straight prefix.now.snapshot (reached prefix.now.snapshot prefix.now.car x) call }
    ensures bounded { result ≤ MOST_CALL_COST }
{
    let rider = &snapshot.calls()[call as usize];
    let delivered = straight_arrival(snapshot, prefix, rider.destination);
    cost_of_call(
        snapshot.building(),
        rider,
        prefix.boarded_at(call),
        delivered,
    )
}

/// The cost in cost units of a group aboard, if the car went straight to its destination.
pub(crate) fn straight_cost_of_group(snapshot: &Snapshot, prefix: &Prefix, group: u32) -> u64
    requires same { snapshot.now ≡ prefix.now.snapshot }
    requires car { prefix.now.car < car_count snapshot.now }
    requires group { group < length snapshot.now.aboard }
    ensures cost { (x : Course) → course prefix.now ≡ Some x → result
        ≡ cost_if_straight prefix.now.snapshot (reached prefix.now.snapshot prefix.now.car x)
        (call_count prefix.now.snapshot + group) }
    ensures bounded { result ≤ MOST_CALL_COST }
{
    let rider = &snapshot.aboard()[group as usize];
    let delivered = straight_arrival(snapshot, prefix, rider.destination);
    cost_of_group(snapshot.building(), rider, delivered)
}

/// The cost in cost units of a call, if it boarded at once, wherever the car is, and rode straight to its
/// destination.
pub(crate) fn cost_alone(snapshot: &Snapshot, prefix: &Prefix, call: u32) -> u64
    requires same { snapshot.now ≡ prefix.now.snapshot }
    requires call { call < call_count snapshot.now }
    ensures cost { (x : Course) → course prefix.now ≡ Some x → result
        ≡ cost_if_alone prefix.now.snapshot call (reached prefix.now.snapshot prefix.now.car x).opened }
    ensures bounded { result ≤ MOST_CALL_COST }
{
    let rider = &snapshot.calls()[call as usize];
    let ride = snapshot
        .building()
        .travel()
        .time(rider.origin, rider.destination);
    let boarded = prefix.opened();
    cost_of_call(snapshot.building(), rider, boarded, boarded + ride)
}
