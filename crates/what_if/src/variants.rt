//! The two snapshots that are compared: without the last call, and with it pinned to a car.

ghost use Rattle.std.specs.Prelude.{◌≡◌, ◌≤◌, IfOk};
ghost use Rattle.elevator_model.specs.Snapshot.{IsAccepted, call_count, call_of};
ghost use Rattle.call_state.specs.SnapshotParts.{snapshot_of};
ghost use Rattle.what_if.specs.WhatIf.{CanTakeAsked, asked, earlier_calls, pinned_to, with_calls};
ghost use Rattle.what_if.specs.WhatIf.{with_pin as with_pin_lem, without_last as without_last_lem};

use call_state::{Call, CarState, Snapshot, SnapshotParts};
use std::alloc::{AllocError, Global};

/// The cars' states, in their order. It fails only where there is no memory left.
fn states_of(alloc: Global, snapshot: &Snapshot) -> Result<Vec<CarState>, AllocError>
    ensures { IfOk result (λ states. states.items ≡ snapshot.now.states) }
{
    let mut states = Vec::new(alloc);
    for car in 0..snapshot.building().cars().len() as u32 {
        states.push(snapshot.car(car))?;
    }
    Ok(states)
}

/// The parts of the snapshot with these calls in place of its own.
fn parts_with(
    alloc: Global,
    snapshot: &Snapshot,
    calls: Vec<Call>,
) -> Result<SnapshotParts, AllocError>
    ensures { IfOk result (λ parts. snapshot_of parts ≡ with_calls snapshot.now calls.items) }
{
    Ok(SnapshotParts {
        version: snapshot.version(),
        now: snapshot.now(),
        cars: states_of(alloc, snapshot)?,
        aboard: snapshot.aboard().to_vec(alloc)?,
        calls,
        building: snapshot.building().copy(alloc)?,
    })
}

/// The call, pinned to this car.
fn pinned(call: &Call, car: u32) -> Call
    ensures { result ≡ pinned_to call.now car }
{
    Call {
        pin: Some(car),
        ..*call
    }
}

/// The last call, the one that is asked about.
pub(crate) fn asked_of(snapshot: &Snapshot) -> &Call
    requires { 1 ≤ call_count snapshot.now }
    ensures { result.now ≡ call_of snapshot.now (asked snapshot.now) }
{
    let calls = snapshot.calls();
    &calls[calls.len() - 1]
}

/// All calls but the last one. It fails only where there is no memory left.
fn earlier_of(alloc: Global, snapshot: &Snapshot) -> Result<Vec<Call>, AllocError>
    requires { 1 ≤ call_count snapshot.now }
    ensures calls { IfOk result (λ calls. calls.items ≡ earlier_calls snapshot.now) }
    ensures accepted { IsAccepted snapshot.now }
{
    let calls = snapshot.calls();
    calls[..calls.len() - 1].to_vec(alloc)
}

/// The calls, the last one pinned to this car. It fails only where there is no memory left.
fn calls_with_pin(alloc: Global, snapshot: &Snapshot, car: u32) -> Result<Vec<Call>, AllocError>
    requires { 1 ≤ call_count snapshot.now }
    ensures calls { IfOk result (λ calls. calls.items ≡ (with_pin_lem snapshot.now car).calls) }
    ensures accepted { IsAccepted snapshot.now }
{
    let mut calls = earlier_of(alloc, snapshot)?;
    calls.push(pinned(asked_of(snapshot), car))?;
    Ok(calls)
}

/// The snapshot without its last call, which is accepted. It fails only where there is no memory left.
pub fn without_last(alloc: Global, snapshot: &Snapshot) -> Result<Snapshot, AllocError>
    requires { 1 ≤ call_count snapshot.now }
    ensures { IfOk result (λ other. other ≡ without_last_lem snapshot.now) }
{
    let calls = earlier_of(alloc, snapshot)?;
    let parts = parts_with(alloc, snapshot, calls)?;
    Snapshot::of_accepted(alloc, parts)
}

/// The snapshot with its last call pinned to a car that can take it, which is accepted. It fails only where
/// there is no memory left.
pub fn with_pin(alloc: Global, snapshot: &Snapshot, car: u32) -> Result<Snapshot, AllocError>
    requires last { 1 ≤ call_count snapshot.now }
    requires takes { CanTakeAsked snapshot.now car }
    ensures { IfOk result (λ other. other ≡ with_pin_lem snapshot.now car) }
{
    let calls = calls_with_pin(alloc, snapshot, car)?;
    let parts = parts_with(alloc, snapshot, calls)?;
    Snapshot::of_accepted(alloc, parts)
}
