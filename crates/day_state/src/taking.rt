//! How a snapshot takes a new call.

ghost use Rattle.std.specs.Prelude.{◌≡◌, ◌<◌, None, IfOk, IfSome, IfNone};
ghost use Rattle.call_sets.specs.Counting.{any_below};
ghost use Rattle.elevator_model.specs.Snapshot.{IsAccepted, car_count, can_take as can_take_lem};
ghost use Rattle.search_model.specs.Days.{fault_of_new_call};
ghost use Rattle.call_state.specs.SnapshotParts.{snapshot_of};
ghost use Rattle.day_state.specs.Openings.{IsNewCall, taken, Refuses};

use call_state::{Call, CarState, Snapshot, SnapshotParts, any_can_take};
use elevator_model::most_calls;
use std::alloc::{AllocError, Global};

/// Why a world does not take a call.
#[derive(Clone, Copy, PartialEq, Eq)]
pub enum NotTaken {
    /// As many calls are open as may be.
    Full,
    /// No car can take it: by its capacity and its floors.
    NoCar,
    /// There is no memory left.
    NoMemory,
}

/// Why the snapshot cannot take the call, if it cannot: there is no room, or else no car for it.
pub(crate) fn refusal(snapshot: &Snapshot, call: &Call) -> Option<NotTaken>
    ensures fault { IfSome result (Refuses (fault_of_new_call snapshot.now call.now)) }
    ensures faultless { IfNone result (fault_of_new_call snapshot.now call.now ≡ None) }
{
    if snapshot.calls().len() >= most_calls(snapshot.building().version()) as usize {
        return Some(NotTaken::Full);
    }
    if !any_can_take(snapshot.building(), call) {
        return Some(NotTaken::NoCar);
    }
    None
}

/// The states of all cars.
fn states_of(alloc: Global, snapshot: &Snapshot) -> Result<Vec<CarState>, AllocError>
    ensures { IfOk result (λ states. states.items ≡ snapshot.now.states) }
{
    let mut states = Vec::new(alloc);
    for car in 0..snapshot.building().cars().len() as u32 {
        states.push(snapshot.car(car))?;
    }
    Ok(states)
}

/// The parts of the snapshot with this call, which is the last one.
fn parts_with(alloc: Global, snapshot: &Snapshot, call: Call) -> Result<SnapshotParts, AllocError>
    ensures parts { IfOk result (λ parts. snapshot_of parts ≡ taken snapshot.now call) }
    ensures accepted { IsAccepted snapshot.now }
{
    let mut calls = snapshot.calls().to_vec(alloc)?;
    calls.push(call)?;
    Ok(SnapshotParts {
        version: snapshot.version(),
        now: snapshot.now(),
        cars: states_of(alloc, snapshot)?,
        aboard: snapshot.aboard().to_vec(alloc)?,
        calls,
        building: snapshot.building().copy(alloc)?,
    })
}

/// The snapshot with this call, which is the last one. It fails only where there is no memory left.
pub(crate) fn snapshot_with(
    alloc: Global,
    snapshot: &Snapshot,
    call: Call,
) -> Result<Snapshot, AllocError>
    requires call { IsNewCall snapshot.now call }
    requires faultless { fault_of_new_call snapshot.now call ≡ None }
    ensures { IfOk result (λ later. later ≡ taken snapshot.now call) }
{
    let parts = parts_with(alloc, snapshot, call)?;
    Snapshot::of_accepted(alloc, parts)
}
