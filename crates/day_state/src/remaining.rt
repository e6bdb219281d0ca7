//! What a world is at a moment, once the cars' stops until then are done: who is aboard, which calls wait,
//! which stops are left.

ghost use Rattle.std.specs.Prelude.{◌≡◌, ◌<◌, ◌≤◌, ◌+◌, ◌++◌, ◌&&◌, not, ℕ, List, map, filter, length};
ghost use Rattle.std.specs.Prelude.{slice_index, nat_lt, IfOk, OnOk};
ghost use Rattle.std.specs.List.{range_with_len, list_any};
ghost use Rattle.call_sets.specs.Counting.{has, sum_where};
ghost use Rattle.elevator_model.specs.Snapshot.{IsAccepted, car_count, call_count, call_of, group_of};
ghost use Rattle.elevator_model.specs.Plans.{IsFeasiblePlan};
ghost use Rattle.elevator_model.specs.Tours.{Progress};
ghost use Rattle.call_state.specs.SnapshotParts.{snapshot_of};
ghost use Rattle.search_model.specs.Advancing.{World as Record, advanced, rides_on};
ghost use Rattle.search_model.specs.Advancing.{group_from as group_from_lem, new_groups, for_cars};
ghost use Rattle.search_model.specs.Advancing.{progress_at};
ghost use Rattle.day_state.specs.Riding.{Rides};
ghost use Rattle.day_state.specs.Reaching.{AreReached, AreWithin, renamed_stop, has_boarded};
ghost use Rattle.tour_rules.specs.Places.{call_in};

use crate::rides::{Reached, Ride, stops_left};
use crate::states::state_then;
use crate::worlds::World;
use call_sets::CallSet;
use call_state::{Aboard, Call, CarState, Snapshot, SnapshotParts};
use elevator_model::{Boards, MOST_CALLS, Plan, Stop, Tour};
use std::alloc::{AllocError, Global};
use tour_rules::places::is_carried;

/// The cars' states at the moment `t`.
fn states_at(
    alloc: Global,
    world: &World,
    t: u64,
    reached: &[Reached],
) -> Result<Vec<CarState>, AllocError>
    requires feasible { IsFeasiblePlan world.now.snapshot world.now.plan }
    requires reached { AreReached world.now t reached.now }
    ensures { IfOk result (λ states. states.items ≡ (advanced world.now t).snapshot.states) }
{
    let tours = world.plan().tours();
    let mut states = Vec::new(alloc);
    for car in 0..reached.len() {
        let one = &reached[car];
        let left = stops_left(&tours[car], one.done);
        states.push(state_then(world.snapshot(), car as u32, t, &one.ride.walker, left))?;
    }
    Ok(states)
}

/// The groups that were aboard and have not got off.
fn groups_staying(
    alloc: Global,
    snapshot: &Snapshot,
    reached: &[Reached],
) -> Result<Vec<Aboard>, AllocError>
    requires { length reached.now ≡ car_count snapshot.now }
    ensures accepted { IsAccepted snapshot.now }
    ensures groups { IfOk result (λ groups. (w : Record) (t : ℕ) → w.snapshot ≡ snapshot.now
        → AreReached w t reached.now → groups.items ≡ map (group_of snapshot.now)
        (filter (rides_on w t) (range_with_len 0 (length snapshot.now.aboard)))) }
{
    let mut groups = Vec::new(alloc);
    for group in snapshot.aboard() {
        let one = &reached[group.car as usize];
        if is_carried(group, group.car, one.ride.walker.place.visited) {
            groups.push(*group)?;
        }
    }
    Ok(groups)
}

/// A call that boarded the car, as a group aboard.
fn group_from(snapshot: &Snapshot, car: u32, ride: &Ride, call: usize) -> Aboard
    requires { call < call_count snapshot.now }
    ensures { (p : Progress) (riders : List ℕ) → Rides snapshot.now car ride.now p riders
        → result ≡ group_from_lem snapshot.now car p call }
{
    let boarded = ride.boarded(call);
    let call = &snapshot.calls()[call];
    Aboard {
        id: call.id,
        car,
        destination: call.destination,
        persons: call.persons,
        boarded,
    }
}

/// Adds the calls that boarded the car and ride on, as groups, in the order of their boarding.
fn add_new_groups(
    snapshot: &Snapshot,
    car: u32,
    ride: &Ride,
    groups: &mut Vec<Aboard>,
) -> Result<(), AllocError>
    ensures { OnOk result ((p : Progress) (riders : List ℕ) → Rides snapshot.now car ride.now p riders
        → groups.new.items ≡ groups.old.items ++ map (group_from_lem snapshot.now car p)
        (filter (λ r. nat_lt r (call_count snapshot.now)) riders)) }
{
    for rider in &ride.riders {
        if *rider < snapshot.calls().len() {
            groups.push(group_from(snapshot, car, ride, *rider))?;
        }
    }
    Ok(())
}

/// Who is aboard at the moment.
fn aboard_at(
    alloc: Global,
    snapshot: &Snapshot,
    reached: &[Reached],
) -> Result<Vec<Aboard>, AllocError>
    requires { length reached.now ≡ car_count snapshot.now }
    ensures { IfOk result (λ groups. (w : Record) (t : ℕ) → w.snapshot ≡ snapshot.now
        → AreReached w t reached.now → groups.items ≡ (advanced w t).snapshot.aboard) }
{
    let mut groups = groups_staying(alloc, snapshot, reached)?;
    for car in 0..reached.len() {
        let one = &reached[car];
        add_new_groups(snapshot, car as u32, &one.ride, &mut groups)?;
    }
    Ok(groups)
}

/// The calls that have boarded some car.
fn boarded_calls(reached: &[Reached]) -> CallSet
    ensures { (j : ℕ) → has result j ≡ list_any (λ one. has_boarded one j) reached.now }
{
    let mut boarded = CallSet::empty();
    for one in reached {
        boarded = boarded.union(one.ride.walker.place.boarded);
    }
    boarded
}

/// The calls that are not in the set.
fn calls_waiting(alloc: Global, calls: &[Call], boarded: CallSet) -> Result<Vec<Call>, AllocError>
    requires { length calls.now ≤ MOST_CALLS }
    ensures { IfOk result (λ waiting. waiting.items ≡ map (call_in calls.now)
        (filter (λ j. not (has boarded j)) (range_with_len 0 (length calls.now)))) }
{
    let mut waiting = Vec::new(alloc);
    for (j, call) in calls.iter().enumerate() {
        if !boarded.contains(j as u32) {
            waiting.push(*call)?;
        }
    }
    Ok(waiting)
}

/// For each of the first calls its index among those that are not in the set.
fn indexes_waiting(alloc: Global, calls: usize, boarded: CallSet) -> Result<Vec<u32>, AllocError>
    requires { calls ≤ MOST_CALLS }
    ensures count { IfOk result (λ indexes. length indexes.items ≡ calls) }
    ensures each { IfOk result (λ indexes. (j : ℕ) → j < calls
        → slice_index indexes.items j ≡ sum_where j (λ k. not (has boarded k)) (λ _. 1)) }
{
    let mut indexes = Vec::with_capacity(alloc, calls)?;
    let mut waiting = 0;
    for call in 0..calls as u32 {
        indexes.push(waiting)?;
        if !boarded.contains(call) {
            waiting += 1;
        }
    }
    Ok(indexes)
}

/// The boards with each call's new index.
fn boards_then(alloc: Global, boards: &[u32], indexes: &[u32]) -> Result<Boards, AllocError>
    ensures { IfOk result (λ then_boards. then_boards ≡ map (slice_index indexes.now) boards.now) }
{
    let mut renamed = Vec::with_capacity(alloc, boards.len())?;
    for call in boards {
        renamed.push(indexes.get(*call as usize).copied().unwrap_or(0))?;
    }
    Ok(Boards::from_vec(renamed))
}

/// The stops with each call's new index.
fn tour_then(alloc: Global, left: &[Stop], indexes: &[u32]) -> Result<Tour, AllocError>
    ensures { IfOk result (λ tour. tour ≡ map (renamed_stop (slice_index indexes.now)) left.now) }
{
    let mut stops = Vec::with_capacity(alloc, left.len())?;
    for stop in left {
        stops.push(Stop {
            floor: stop.floor,
            boards: boards_then(alloc, stop.boards.as_slice(), indexes)?,
        })?;
    }
    Ok(Tour::from_vec(stops))
}

/// The parts of the snapshot at the moment `t`.
fn parts_at(
    alloc: Global,
    world: &World,
    t: u64,
    reached: &[Reached],
) -> Result<SnapshotParts, AllocError>
    requires feasible { IsFeasiblePlan world.now.snapshot world.now.plan }
    requires reached { AreReached world.now t reached.now }
    ensures { IfOk result (λ parts. snapshot_of parts ≡ (advanced world.now t).snapshot) }
{
    let snapshot = world.snapshot();
    Ok(SnapshotParts {
        version: snapshot.version(),
        now: t,
        cars: states_at(alloc, world, t, reached)?,
        aboard: aboard_at(alloc, snapshot, reached)?,
        calls: calls_waiting(alloc, snapshot.calls(), boarded_calls(reached))?,
        building: snapshot.building().copy(alloc)?,
    })
}

/// The stops that are left at the moment.
fn plan_at(alloc: Global, world: &World, reached: &[Reached]) -> Result<Plan, AllocError>
    requires feasible { IsFeasiblePlan world.now.snapshot world.now.plan }
    requires count { length reached.now ≡ car_count world.now.snapshot }
    requires within { AreWithin world.now.plan reached.now }
    ensures plan { IfOk result (λ plan. (t : ℕ) → AreReached world.now t reached.now
        → plan ≡ (advanced world.now t).plan) }
    ensures accepted { IsAccepted world.now.snapshot }
{
    let calls = world.snapshot().calls().len();
    let indexes = indexes_waiting(alloc, calls, boarded_calls(reached))?;
    let tours = world.plan().tours();
    let mut plan = Plan::new(alloc);
    for car in 0..reached.len() {
        let one = &reached[car];
        let left = stops_left(&tours[car], one.done);
        plan.push(tour_then(alloc, left, indexes.as_slice())?)?;
    }
    Ok(plan)
}

/// The world at the moment `t`.
pub(crate) fn world_at(
    alloc: Global,
    world: &World,
    t: u64,
    reached: &[Reached],
) -> Result<World, AllocError>
    requires feasible { IsFeasiblePlan world.now.snapshot world.now.plan }
    requires reached { AreReached world.now t reached.now }
    requires later { world.now.snapshot.moment ≤ t }
    requires early { t ≤ 1000000000 }
    ensures world { IfOk result (λ later. later ≡ advanced world.now t) }
    ensures feasible { IfOk result (λ later. IsFeasiblePlan later.snapshot later.plan) }
{
    let plan = plan_at(alloc, world, reached)?;
    let parts = parts_at(alloc, world, t, reached)?;
    let snapshot = Snapshot::of_accepted(alloc, parts)?;
    Ok(World::of_parts(snapshot, plan))
}
