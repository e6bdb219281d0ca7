//! One pass over the calls for each set.

ghost use Rattle.std.specs.Prelude.{◌≡◌, ℕ, ◌<◌, ◌≤◌, ◌==◌, ◌&&◌, ◌||◌, nat_lt, nat_le, length};
ghost use Rattle.std.specs.Prelude.{slice_index_or, IfOk};
ghost use Rattle.call_sets.specs.Counting.{has};
ghost use Rattle.elevator_model.specs.Snapshot.{car_count, call_count, no_call};
ghost use Rattle.elevator_model.specs.Tours.{is_call_for, is_later_in_queue as is_later_in_queue_lem};
ghost use Rattle.car_layout.specs.Layouts.{starts_at, ends_at, is_earlier, fits_in};
ghost use Rattle.car_layout.specs.Tables.{IsTable};

use call_sets::CallSet;
use call_state::{Call, Snapshot};
use elevator_model::{MOST_CALLS, MOST_PERSONS};
use std::alloc::{AllocError, Global};

/// The set, and the call in it where it passes.
fn with_if(set: CallSet, call: u32, passes: bool) -> CallSet
    requires { call < MOST_CALLS }
    ensures { (k : ℕ) → has result k ≡ (has set k || ((k == call) && passes)) }
{
    if passes { set.with(call) } else { set }
}

/// The calls that start at a floor.
fn calls_from(calls: &[Call], floor: u32) -> CallSet
    requires { length calls.now ≤ MOST_CALLS }
    ensures { (j : ℕ) → has result j ≡ (nat_lt j (length calls.now)
        && ((slice_index_or calls.now j no_call).origin == floor)) }
{
    let mut set = CallSet::empty();
    for (j, call) in calls.iter().enumerate() {
        set = with_if(set, j as u32, call.origin == floor);
    }
    set
}

/// The calls that end at a floor.
fn calls_to(calls: &[Call], floor: u32) -> CallSet
    requires { length calls.now ≤ MOST_CALLS }
    ensures { (j : ℕ) → has result j ≡ (nat_lt j (length calls.now)
        && ((slice_index_or calls.now j no_call).destination == floor)) }
{
    let mut set = CallSet::empty();
    for (j, call) in calls.iter().enumerate() {
        set = with_if(set, j as u32, call.destination == floor);
    }
    set
}

/// The calls of at most this many persons.
fn calls_of_at_most(calls: &[Call], persons: u32) -> CallSet
    requires { length calls.now ≤ MOST_CALLS }
    ensures { (j : ℕ) → has result j ≡ (nat_lt j (length calls.now)
        && nat_le (slice_index_or calls.now j no_call).persons persons) }
{
    let mut set = CallSet::empty();
    for (j, call) in calls.iter().enumerate() {
        set = with_if(set, j as u32, call.persons <= persons);
    }
    set
}

/// The calls of a queue that are earlier than one of it.
fn calls_before(calls: &[Call], later: &Call) -> CallSet
    requires { length calls.now ≤ MOST_CALLS }
    ensures { (j : ℕ) → has result j ≡ (nat_lt j (length calls.now)
        && is_later_in_queue_lem later.now (slice_index_or calls.now j no_call)) }
{
    let mut set = CallSet::empty();
    for (j, call) in calls.iter().enumerate() {
        set = with_if(set, j as u32, later.is_later_in_queue(call));
    }
    set
}

/// The calls that a car may take.
pub(crate) fn calls_for(snapshot: &Snapshot, car: u32) -> CallSet
    ensures { (j : ℕ) → has result j ≡ is_call_for snapshot.now car j }
{
    let calls = snapshot.calls().len() as u32;
    let mut set = CallSet::empty();
    for j in 0..calls {
        set = with_if(set, j, snapshot.may_take(car, j));
    }
    set
}

/// For each floor the calls that start there.
pub(crate) fn starting_table(alloc: Global, snapshot: &Snapshot) -> Result<Vec<CallSet>, AllocError>
    ensures { IfOk result (λ sets. IsTable 64 (starts_at snapshot.now) sets.items) }
{
    let calls = snapshot.calls();
    let mut sets = Vec::new(alloc);
    for floor in 0..64 {
        sets.push(calls_from(calls, floor))?;
    }
    Ok(sets)
}

/// For each floor the calls that end there.
pub(crate) fn ending_table(alloc: Global, snapshot: &Snapshot) -> Result<Vec<CallSet>, AllocError>
    ensures { IfOk result (λ sets. IsTable 64 (ends_at snapshot.now) sets.items) }
{
    let calls = snapshot.calls();
    let mut sets = Vec::new(alloc);
    for floor in 0..64 {
        sets.push(calls_to(calls, floor))?;
    }
    Ok(sets)
}

/// For each call the earlier ones of its queue.
pub(crate) fn earlier_table(alloc: Global, snapshot: &Snapshot) -> Result<Vec<CallSet>, AllocError>
    ensures { IfOk result
        (λ sets. IsTable (call_count snapshot.now) (is_earlier snapshot.now) sets.items) }
{
    let calls = snapshot.calls();
    let mut sets = Vec::new(alloc);
    for j in 0..calls.len() {
        sets.push(calls_before(calls, &calls[j]))?;
    }
    Ok(sets)
}

/// For each number of persons up to 8 the calls of no more.
pub(crate) fn fitting_table(alloc: Global, snapshot: &Snapshot) -> Result<Vec<CallSet>, AllocError>
    ensures { IfOk result (λ sets. IsTable 9 (fits_in snapshot.now) sets.items) }
{
    let calls = snapshot.calls();
    let mut sets = Vec::new(alloc);
    for persons in 0..MOST_PERSONS + 1 {
        sets.push(calls_of_at_most(calls, persons))?;
    }
    Ok(sets)
}
